#![tactic(auto)]

pub mod fault;
pub mod reader;
pub mod search;
pub mod span;
