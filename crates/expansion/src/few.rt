ghost use Rattle.std.specs.Prelude.{◌≤◌};

pub mod calls;

// At most 16 small numbers in order: as many as a request has elements, and a reference tags.
// An array with a count: it is copied with each row, without the heap. What stands past the count
// is no part of it, so Debug and == are not derived.
#[derive(Clone, Copy)]
pub struct Few {
    pub(crate) numbers: [u8; 16],
    pub(crate) count: u8,
    ghost few: { count ≤ 16 },
}
