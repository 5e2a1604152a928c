use wire::fault::{Fault, Refused};

// What was refused: a field of the file, or one of a line.
pub type GrantsFault = Refused<Fault>;
