use wire::fault::{Fault, Refused};

// What was refused: a field of the file, or one of a name or of a link.
pub type TreeFault = Refused<Fault>;
