// A reference lists no elements where one of its tags names none: the position of the first such tag.
#[derive(Clone, Copy, Debug, PartialEq)]
pub struct UnknownTag {
    pub position: u8,
}
