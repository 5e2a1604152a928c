// The codes that mean something to an expansion. Other categories, ids and types are compared and nothing else,
// so a code stays the byte that it is in a file.

pub const RESOURCE: u8 = 1;

pub const SUBJECT: u8 = 2;

pub const ACTION: u8 = 3;

pub const RESOURCE_ID: u8 = 1;

pub const SCOPE: u8 = 2;

pub const SUBJECT_ID: u8 = 3;

pub const ACTION_ID: u8 = 4;

pub const STRING: u8 = 1;
