#![tactic(auto)]

ghost use Rattle.std.specs.Prelude.{◌≡◌};
ghost use Rattle.std.specs.Option.{option_map};
ghost use Rattle.model.specs.Lists.{nth};
ghost use Rattle.model.specs.Tree.{Tree as Meaning, Limits, count as node_count, node_named};
ghost use Rattle.tree.specs.Questions.{least_child};

pub mod extent;
pub mod marks;
pub mod reach;

// Nodes with names, and links from node to node. A node's number is the place of its name.
pub trait Tree {
    // What the tree means; no question changes it.
    ghost meaning: { Self → Meaning };

    // What every implementation shows.
    ghost limits: { (t : Self) → Limits (meaning t) };

    fn count(&self) -> usize
        ensures { result ≡ node_count (meaning self.now) };

    // The node with this name.
    fn find(&self, name: &[u8]) -> Option<usize>
        ensures { result ≡ node_named (meaning self.now) name.now };

    // None past the last node.
    fn name(&self, node: usize) -> Option<&[u8]>
        ensures { option_map (λ x. x.now) result ≡ nth (meaning self.now).names node };

    // The least node, `from` or above, that a link leads to from `node`; none past the last node.
    fn child(&self, node: usize, from: usize) -> Option<usize>
        ensures { result ≡ least_child (meaning self.now) node from };
}
