#![tactic(auto)]

pub mod decode;
pub mod turn;
