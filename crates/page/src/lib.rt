// The next multiple of the page: where a record's padding ends. One body for the writer and the readers, where the Rust has two
// (segment_rw.rs). Any u32 may be given, and a record ends below 2^32 in any image; the sum is one of u64, which holds it.
#![tactic(auto)]

ghost use Rattle.std.specs.Prelude.{◌≡◌};
ghost use Rattle.page.specs.Page.{padded_end};

pub const PAGE_SIZE: u64 = 4096;

pub fn padded_end(end: u32) -> u64
    ensures { result ≡ padded_end 4096 end }
{
    (u64::from(end) + (PAGE_SIZE - 1)) / PAGE_SIZE * PAGE_SIZE
}
