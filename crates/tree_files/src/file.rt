ghost use Rattle.std.specs.Prelude.{◌≡◌, IfOk, OnErr, OnOk};
ghost use Rattle.tree_files.specs.Answered.{answered, Opened};
ghost use Rattle.tree_files.specs.Held.{no_tree};
ghost use Rattle.tree_files.specs.Limited.{file_limits};
ghost use Rattle.tree_files.specs.Refused.{in_tree_fault};
ghost use Rattle.tree_files.specs.Trees.{tree_of_file};

use crate::fault::TreeFault;
use crate::format::Format;
use crate::kept::Kept;
use crate::tables::Tables;
use std::alloc::{AllocError, Global};
use std::marker::PhantomData;
use tree::Tree;

// A place for a tree of a format: what was read last, and room to read the next.
#[derive(Drop)]
pub struct TreeFile<'a, F: Format> {
    kept: Kept<'a>,
    spare: Tables<'a>,
    format: PhantomData<F>,
}

impl<'a, F: Format> TreeFile<'a, F> {
    // Reserves what any tree can need; only this call can want memory.
    pub fn new(heap: Global) -> Result<TreeFile<'a, F>, AllocError>
        ensures { IfOk result (λ t. tree_of_file t ≡ no_tree) }
    {
        Ok(TreeFile {
            kept: Kept::new(heap)?,
            spare: Tables::new(heap)?,
            format: PhantomData,
        })
    }

    // Reads the tree that the bytes spell; a refusal leaves the one before. About n log n comparisons of names and of links.
    pub fn open(&mut self, bytes: &'a [u8]) -> Result<(), TreeFault>
        ensures answer { answered in_tree_fault (tree_of_file self.new) result ≡ F.reading bytes.now }
        ensures spelled { Opened F.Spelling bytes.now (tree_of_file self.new) result }
        ensures left { OnErr result (tree_of_file self.new ≡ tree_of_file self.old) }
        ensures besides { OnOk result (F.Besides (tree_of_file self.new)) }
    {
        self.spare.read::<F>(bytes)?;
        self.kept.take(&mut self.spare);
        Ok(())
    }
}

impl<F: Format> Tree for TreeFile<'_, F> {
    ghost meaning = { tree_of_file };

    ghost limits = { file_limits };

    fn count(&self) -> usize {
        self.kept.count()
    }

    fn find(&self, name: &[u8]) -> Option<usize> {
        self.kept.find(name)
    }

    fn name(&self, node: usize) -> Option<&[u8]> {
        self.kept.name(node)
    }

    fn child(&self, node: usize, from: usize) -> Option<usize> {
        self.kept.child(node, from)
    }
}
