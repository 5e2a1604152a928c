#![tactic(auto)]

pub mod command;
mod options;
pub mod parse;
