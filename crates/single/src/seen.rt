use wire::span::Span;

// Where an attribute's value lies: a part of the request's bytes, or the node's name itself.
#[derive(Clone, Copy, Debug, PartialEq)]
pub enum Place {
    Part(Span),
    Name,
}

// An attribute as a single request shows it.
#[derive(Clone, Copy, Debug, PartialEq)]
pub struct Seen {
    pub included: bool,
    pub id: u8,
    pub data_type: u8,
    pub issuer: Option<Span>,
    pub value: Place,
}
