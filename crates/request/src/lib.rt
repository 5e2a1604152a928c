#![tactic(auto)]

pub mod content;
pub mod fault;
pub mod index;
mod read;
pub mod request;
#[cfg(test)]
mod tests;
