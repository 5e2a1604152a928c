pub mod elements;
pub mod index;
pub mod references;
