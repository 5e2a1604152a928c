use model::decision::{Cause, Decision, Status};

// One individual decision, with where it comes from. A fault row has a cause, and no single request.
#[derive(Debug, PartialEq, Drop)]
pub struct OracleRow {
    pub reference: usize,
    pub choice: Option<Vec<usize>>,
    pub node: Option<usize>,
    pub decision: Decision,
    pub status: Status,
    pub cause: Option<Cause>,
    pub place: usize,
    pub single: Option<Vec<u8>>,
}

// All rows of a request, and the verdict where one was asked for.
#[derive(Debug, PartialEq, Drop)]
pub struct Expanded {
    pub rows: Vec<OracleRow>,
    pub verdict: Option<Decision>,
}
