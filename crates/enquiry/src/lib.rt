#![tactic(auto)]

pub mod asking;
pub mod calls;
pub mod enquiry;
pub mod row;
pub mod rows;
pub mod work;
