// A buffer is too short; this many bytes are needed.
#[derive(Clone, Copy, Debug, PartialEq)]
pub struct TooShort {
    pub needed: usize,
}
