ghost use Rattle.std.specs.Prelude.{◌≡◌, ◌≤◌, vec_len, vec_capacity, count_by};

use crate::marks::Marks;

pub mod steps;

// A node that links lead to, and the least number of links that do.
#[derive(Clone, Copy, Debug, PartialEq)]
pub struct Reached {
    pub node: usize,
    pub distance: usize,
}

// The nodes that links lead to from one node, level by level.
#[derive(Drop)]
pub struct Reach {
    // The levels so far, one after the other.
    nodes: Vec<Reached>,
    // Which nodes those are.
    seen: Marks,
    // The asked node, and the children of all levels but perhaps the last.
    found: Marks,
    ghost room: { 1024 ≤ vec_capacity nodes },
    ghost counted: { vec_len nodes ≡ count_by (λ b. b) seen.on },
}
