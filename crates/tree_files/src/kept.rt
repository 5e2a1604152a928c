ghost use Rattle.std.specs.Prelude.{length};
ghost use Rattle.tree_files.specs.Texts.{texts_in};
ghost use Rattle.tree_files.specs.Links.{Ends, LinkAscending};

use crate::tables::Tables;
use std::alloc::{AllocError, Global};
use std::mem::swap;
use tree::Tree;

// The tree that was read last.
#[derive(Drop)]
pub struct Kept<'a> {
    tables: Tables<'a>,
    ghost ends: { Ends (length (texts_in tables.names)) tables.links.items },
    ghost sorted: { LinkAscending tables.links.items },
}

impl<'a> Kept<'a> {
    ghost use Rattle.std.specs.Prelude.{◌≡◌, IfOk};
    ghost use Rattle.tree_files.specs.Held.{Good, no_tree, tree_in};
    ghost use Rattle.tree_files.specs.Kept.{tree_of};

    // No nodes.
    pub(crate) fn new(heap: Global) -> Result<Kept<'a>, AllocError>
        ensures { IfOk result (λ k. tree_of k ≡ no_tree) }
    {
        Ok(Kept {
            tables: Tables::new(heap)?,
        })
    }

    // Takes what was read, and leaves what was kept before.
    pub(crate) fn take(&mut self, tables: &mut Tables<'a>)
        requires { Good tables.old }
        ensures { tree_of self.new ≡ tree_in tables.old }
    {
        swap(&mut self.tables, tables);
    }
}

impl Tree for Kept<'_> {
    ghost use Rattle.tree_files.specs.Kept.{tree_of};
    ghost use Rattle.tree_files.specs.Limited.{kept_limits};

    ghost meaning = { tree_of };

    ghost limits = { kept_limits };

    fn count(&self) -> usize {
        self.tables.names.len()
    }

    // About log n comparisons of names.
    fn find(&self, name: &[u8]) -> Option<usize> {
        self.tables.names.find(name)
    }

    fn name(&self, node: usize) -> Option<&[u8]> {
        self.tables.names.get(node)
    }

    // About log n comparisons of links.
    fn child(&self, node: usize, from: usize) -> Option<usize> {
        let links = self.tables.links.as_slice();
        let next = links.partition_point(|link| *link < (node, from));
        links
            .get(next)
            .filter(|link| link.0 == node)
            .map(|link| link.1)
    }
}
