#![tactic(auto)]

pub mod asking;
pub mod point;
