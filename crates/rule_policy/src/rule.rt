use wire::span::Span;

// What a rule decides where it applies.
#[derive(Clone, Copy, Debug, PartialEq, Eq)]
pub enum Effect {
    Permit,
    Deny,
}

// A condition; its texts are parts of the file's bytes.
#[derive(Clone, Copy, Debug, PartialEq)]
pub struct Condition {
    pub required: bool,
    pub category: u8,
    pub id: u8,
    pub data_type: u8,
    pub issuer: Option<Span>,
    pub value: Span,
}

// A rule; its conditions stand in a row in the table of all.
#[derive(Clone, Copy, Debug, PartialEq)]
pub struct Rule {
    pub effect: Effect,
    pub conditions: Span,
}
