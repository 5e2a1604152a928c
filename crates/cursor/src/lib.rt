#![tactic(auto)]

pub mod cursor;
pub mod moves;
pub mod spot;
