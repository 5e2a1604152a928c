#![tactic(auto)]

pub mod fault;
pub mod file;
mod format;
mod kept;
pub mod linked;
mod names;
pub mod paths;
mod read;
mod tables;
#[cfg(test)]
mod tests;
pub mod theorems;
