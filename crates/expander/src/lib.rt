#![tactic(auto)]

mod choices;
mod content;
mod decide;
pub mod error;
pub mod expand;
mod input;
mod read;
pub mod row;
mod scope;
mod single;
