#![tactic(auto)]

pub mod asked;
pub mod categories;
pub mod choice;
pub mod chosen;
pub mod few;
pub mod list;
pub mod listing;
pub mod put;
pub mod scope;
