// Parts of a slice that are always there: what lies past its end is left out. And the room of slots. For the programs.
// Assumes nothing.
#![tactic(auto)]

ghost use Rattle.std.specs.Prelude.{◌≡◌, ◌*◌, take, drop, ltb};
ghost use Rattle.lists.specs.Choice.{pick};

// The first n bytes.
pub fn front(bytes: &[u8], n: usize) -> &[u8]
    ensures { result.now ≡ take n bytes.now }
{
    &bytes[..n.min(bytes.len())]
}

// The bytes from `from` on and before `to`.
pub fn between(bytes: &[u8], from: usize, to: usize) -> &[u8]
    ensures { result.now ≡ drop from (take to bytes.now) }
{
    let whole = front(bytes, to);
    &whole[from.min(whole.len())..]
}

// The bytes of so many slots of a size; 0 for more than 64 slots, or slots of more than 2^31 bytes.
pub fn room(slots: u64, size: u64) -> usize
    ensures { result ≡ pick (ltb 64 slots) 0 (pick (ltb 2147483648 size) 0 (slots * size)) }
{
    if 64 < slots || 2147483648 < size {
        return 0;
    }
    (slots * size) as usize
}
