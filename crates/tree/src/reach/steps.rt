ghost use Rattle.std.specs.Prelude.{◌≡◌, ℕ, ◌<◌, ◌≤◌, false, ◌||◌, [], ◌++◌, replicate, IfOk, slice_index_or};
ghost use Rattle.model.specs.Lists.{upto, any, keep};
ghost use Rattle.model.specs.Tree.{count as node_count, reached};
ghost use Rattle.tree.specs.Reached.{extent_of, farthest_of, nodes_reached, all_at, fresh, Marked};
ghost use Rattle.tree.specs.Reaches.{Reaches};

use crate::Tree;
use crate::extent::Extent;
use crate::marks::Marks;
use crate::reach::{Reach, Reached};
use std::alloc::{AllocError, Global};

fn mark_children<T: Tree>(tree: &T, node: usize, found: &mut Marks)
    ensures { Marked 1024 found.old.on found.new.on ((T.meaning tree.now).linked node) }
{
    let mut from = 0;
    // Child by child, as a tree answers: each question gives the next, or none.
    while let Some(child) = tree.child(node, from) {
        found.set(child);
        from = child + 1;
    }
}

// The children of a level's nodes are found.
fn spread<T: Tree>(tree: &T, level: &[Reached], found: &mut Marks)
    ensures { Marked 1024 found.old.on found.new.on (λ k. any (λ m. (T.meaning tree.now).linked m k) (nodes_reached level.now)) }
{
    for reached in level {
        mark_children(tree, reached.node, found);
    }
}

// The greatest distance that is looked at.
fn farthest(extent: Extent, count: usize) -> usize
    ensures { result ≡ farthest_of (extent_of extent) count }
{
    match extent {
        Extent::Children => 1,
        Extent::Descendants => count.saturating_sub(1),
    }
}

impl Reach {
    // Reserves what any tree can need; only this call can want memory.
    pub fn new(heap: Global) -> Result<Reach, AllocError>
        ensures { IfOk result (λ x. x.nodes.items ≡ []) }
    {
        let nodes = Vec::with_capacity(heap, 1024)?;
        let seen = Marks::new();
        let found = Marks::new();
        Ok(Reach { nodes, seen, found })
    }

    // What the last search reached.
    pub fn nodes(&self) -> &[Reached]
        ensures { result.now ≡ self.now.nodes.items }
    {
        self.nodes.as_slice()
    }

    fn clear(&mut self)
        ensures nodes { self.new.nodes.items ≡ [] }
        ensures seen { self.new.seen.on ≡ replicate 1024 false }
        ensures found { self.new.found.on ≡ replicate 1024 false }
    {
        self.nodes.clear();
        self.seen.clear();
        self.found.clear();
    }

    // Appends the nodes that are found and not seen, in ascending number; then they are seen.
    fn gather(&mut self, count: usize, distance: usize)
        requires { count ≤ 1024 }
        ensures nodes { self.new.nodes.items ≡ self.old.nodes.items ++ all_at distance (keep (fresh self.old.found.on self.old.seen.on) (upto 0 count)) }
        ensures seen { Marked count self.old.seen.on self.new.seen.on (λ k. slice_index_or self.old.found.on k false) }
        ensures found { self.new.found.on ≡ self.old.found.on }
    {
        // By number: the marks tell of numbers, and no slice holds the nodes.
        for node in 0..count {
            if self.found.is_set(node) && !self.seen.is_set(node) {
                self.seen.set(node);
                self.nodes.push_reserved(Reached { node, distance });
            }
        }
    }

    // The nodes that links lead to from `asked`, with their distances, level by level; none where there is no such node.
    // Asks for each child of each reached node once, and looks through the marks once for each level.
    pub fn search<T: Tree>(&mut self, tree: &T, asked: usize, extent: Extent)
        ensures nodes { nodes_reached self.new.nodes.items ≡ reached (T.meaning tree.now) (extent_of extent) asked }
        ensures reaches { asked < node_count (T.meaning tree.now) → Reaches (T.meaning tree.now) (extent_of extent) asked self.new.nodes.items }
    {
        self.clear();
        self.found.set(asked);
        let count = tree.count();
        self.gather(count, 0);
        let mut start = 0;
        for distance in 0..farthest(extent, count) {
            let end = self.nodes.len();
            spread(tree, &self.nodes[start..], &mut self.found);
            self.gather(count, distance + 1);
            if self.nodes.len() == end {
                return;
            }
            start = end;
        }
    }
}
