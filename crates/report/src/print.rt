pub mod described;
pub mod of_request;
pub mod of_tree;
pub mod point;
