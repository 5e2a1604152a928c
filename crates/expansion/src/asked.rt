use tree::extent::Extent;

// What is reached from a node, as a resource element asks for it.
#[derive(Clone, Copy, Debug, PartialEq)]
pub struct Exploration {
    pub extent: Extent,
    pub node: usize,
}
