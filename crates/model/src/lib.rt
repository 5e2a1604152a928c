#![tactic(auto)]

pub mod call;
pub mod codes;
pub mod decision;
pub mod item;
pub mod refusal;
pub mod theorems;
