use expansion::few::Few;
use model::decision::{Cause, Decision, Status};

// One decision of a request: where it stands, and what was decided or why nothing could be.
#[derive(Clone, Copy)]
pub struct Row {
    pub reference: usize,
    // The position taken of each category; none where the reference itself is at fault.
    pub choice: Option<Few>,
    pub node: Option<usize>,
    pub decision: Decision,
    pub status: Status,
    // None where the decision, the status and the place are the decision point's answer.
    pub cause: Option<Cause>,
    pub place: u16,
}
