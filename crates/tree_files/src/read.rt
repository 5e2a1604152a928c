pub mod links;
pub mod names;
pub mod parents;
pub mod whole;
