pub mod points;
pub mod request;
pub mod trees;
