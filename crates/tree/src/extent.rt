// How far a reach goes from the asked node.
#[derive(Clone, Copy, Debug, PartialEq)]
pub enum Extent {
    // The asked node and its children.
    Children,
    // The asked node and every node that links lead to from it.
    Descendants,
}
