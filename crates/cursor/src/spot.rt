use expansion::few::Few;
use model::decision::Cause;

// What a row rests on.
#[derive(Clone, Copy)]
pub enum Basis {
    // A cause and its place: no decision point is asked.
    Fault(Cause, u8),
    // The chosen elements, by their numbers in the request: they are put to the decision point.
    Single(Few),
}

// Where a row stands, and what it rests on.
#[derive(Clone, Copy)]
pub struct Spot {
    pub reference: usize,
    pub choice: Option<Few>,
    pub node: Option<usize>,
    pub basis: Basis,
}
