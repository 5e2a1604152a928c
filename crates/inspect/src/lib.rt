#![tactic(auto)]

pub mod below;
pub mod check;
pub mod decide;
pub mod file;
pub mod opened;
