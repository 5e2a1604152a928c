use wire::span::Span;

// An attribute; its texts are parts of the request's bytes.
#[derive(Clone, Copy, Debug, PartialEq)]
pub struct Attribute {
    pub included: bool,
    pub id: u8,
    pub data_type: u8,
    pub issuer: Option<Span>,
    pub value: Span,
}

// An element; its attributes stand in a row in the table of all: a list of its own would want memory at opening.
#[derive(Clone, Copy, Debug, PartialEq)]
pub struct Element {
    pub category: u8,
    pub tag: Option<u8>,
    pub attributes: Span,
}
