use wire::fault::{Fault, Refused};

// What was refused in a rule: a field of its own, or one of a condition.
pub type RuleFault = Refused<Fault>;

pub type PolicyFault = Refused<RuleFault>;
