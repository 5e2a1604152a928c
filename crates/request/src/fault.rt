use wire::fault::{Fault, Refused};

// What was refused in an element or in a reference: a field of its own, or one of an attribute.
pub type ElementFault = Refused<Fault>;

pub type RequestFault = Refused<ElementFault>;
