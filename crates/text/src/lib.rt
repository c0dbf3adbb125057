// Text put together in a lent buffer, piece behind piece, for the programs. What does not fit is dropped, and the rest of the buffer stays.
// A number is put as its decimal digits. Assumes nothing.
#![tactic(auto)]

ghost use Rattle.std.specs.Prelude.{◌≡◌, ◌++◌, ◌<◌, drop};
ghost use Rattle.text.specs.Decimal.{decimal_of};
ghost use Rattle.text.specs.Texts.{Put};

// The buffer, and where the text that stands in it ends.
#[derive(Drop)]
pub struct Text<'a> {
    pub out: &'a mut [u8],
    pub end: usize,
}

// Puts the decimal digits of v at the end of 20 bytes, the last one first; where they begin.
fn digits_into(v: u64, digits: &mut [u8; 20]) -> usize
    ensures begins { result < 20 }
    ensures digits { drop result digits.new ≡ decimal_of v }
{
    let mut rest = v;
    for i in (0..20).rev() {
        digits[i] = b'0' + (rest % 10) as u8;
        rest /= 10;
        if rest == 0 {
            return i;
        }
    }
    0
}

impl Text<'_> {
    // Puts the bytes behind the text.
    pub fn put(&mut self, bytes: &[u8])
        ensures text { Put self.old.end bytes.now self.old.out.now self.new.end self.new.out.now }
        ensures same_buffer { self.new.out.ghost_name ≡ self.old.out.ghost_name }
    {
        lists::copy_into(self.out, self.end, bytes);
        self.end = self.end.saturating_add(bytes.len()).min(self.out.len());
    }

    // Puts a number behind the text, in decimal.
    pub fn put_number(&mut self, v: u64)
        ensures text { Put self.old.end (decimal_of v) self.old.out.now self.new.end self.new.out.now }
        ensures same_buffer { self.new.out.ghost_name ≡ self.old.out.ghost_name }
    {
        let mut digits = [0; 20];
        let begin = digits_into(v, &mut digits);
        self.put(&digits[begin..]);
    }

    // Puts a word and a number behind the text.
    pub fn put_named(&mut self, word: &[u8], v: u64)
        ensures text { Put self.old.end (word.now ++ decimal_of v) self.old.out.now self.new.end self.new.out.now }
        ensures same_buffer { self.new.out.ghost_name ≡ self.old.out.ghost_name }
    {
        self.put(word);
        self.put_number(v);
    }
}
