use expander::error::ExpandError;
use expander::row::Expanded;
use model::decision::Decision;
use std::fmt;

// What has been compared so far.
#[derive(Clone, Copy, Debug, Default, PartialEq)]
pub struct Tally {
    cases: u64,
    different: u64,
    // Cases of which a file is refused.
    refused: u64,
    rows: u64,
    // Of the rows, those with a node, and those at fault.
    nodes: u64,
    faults: u64,
    permits: u64,
    // Verdicts that were asked for.
    verdicts: u64,
}

fn count(counter: &mut u64, holds: bool) {
    *counter = counter.saturating_add(u64::from(holds));
}

impl Tally {
    fn add_rows(&mut self, expanded: &Expanded) {
        for row in &expanded.rows {
            count(&mut self.rows, true);
            count(&mut self.nodes, row.node.is_some());
            count(&mut self.faults, row.cause.is_some());
            count(&mut self.permits, row.decision == Decision::Permit);
        }
        count(&mut self.verdicts, expanded.verdict.is_some());
    }

    pub fn add(&mut self, expected: &Result<Expanded, ExpandError>, same: bool) {
        count(&mut self.cases, true);
        count(&mut self.different, !same);
        count(&mut self.refused, expected.is_err());
        if let Ok(expanded) = expected {
            self.add_rows(expanded);
        }
    }
}

impl fmt::Display for Tally {
    fn fmt<W: fmt::Write>(&self, f: &mut fmt::Formatter<W>) -> fmt::Result {
        let Tally {
            cases,
            different,
            refused,
            rows,
            nodes,
            faults,
            permits,
            verdicts,
        } = self;
        writeln!(f, "{cases} cases, {different} different")?;
        writeln!(
            f,
            "  {refused} with a refused file, {verdicts} with a verdict"
        )?;
        write!(
            f,
            "  {rows} rows, {nodes} with a node, {faults} at fault, {permits} Permit"
        )
    }
}
