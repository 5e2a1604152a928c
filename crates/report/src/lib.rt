#![tactic(auto)]

pub mod console;
pub mod failed;
pub mod print;
pub mod text;
pub mod words;
