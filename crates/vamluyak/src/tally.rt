use model::decision::Decision;
use std::fmt;

// How many rows have each decision.
#[derive(Clone, Copy, Debug, Default, PartialEq)]
pub struct Tally {
    permit: u64,
    deny: u64,
    indeterminate: u64,
    not_applicable: u64,
}

impl Tally {
    pub(crate) fn count(&mut self, decision: Decision) {
        let counted = match decision {
            Decision::Permit => &mut self.permit,
            Decision::Deny => &mut self.deny,
            Decision::Indeterminate => &mut self.indeterminate,
            Decision::NotApplicable => &mut self.not_applicable,
        };
        *counted = counted.saturating_add(1);
    }
}

impl fmt::Display for Tally {
    fn fmt<W: fmt::Write>(&self, f: &mut fmt::Formatter<W>) -> fmt::Result {
        let Tally {
            permit,
            deny,
            indeterminate,
            not_applicable,
        } = self;
        write!(
            f,
            "Permit {permit}, Deny {deny}, Indeterminate {indeterminate}, NotApplicable {not_applicable}"
        )
    }
}
