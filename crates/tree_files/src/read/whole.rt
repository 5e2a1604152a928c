ghost use Rattle.std.specs.Prelude.{◌≡◌, IfOk, OnOk};
ghost use Rattle.tree_files.specs.Answered.{Answers};
ghost use Rattle.tree_files.specs.Held.{tree_in, Good, no_tree};
ghost use Rattle.tree_files.specs.Refused.{in_tree_fault};

use crate::fault::TreeFault;
use crate::format::Format;
use crate::names::Names;
use crate::read::names::read_names;
use crate::tables::Tables;
use std::alloc::{AllocError, Global};
use wire::reader::Reader;

impl<'a> Tables<'a> {
    pub(crate) fn new(heap: Global) -> Result<Tables<'a>, AllocError>
        ensures tree { IfOk result (λ t. tree_in t ≡ no_tree) }
        ensures good { IfOk result Good }
    {
        let names = Names::new(heap)?;
        let links = Vec::with_capacity(heap, 4096)?;
        Ok(Tables { names, links })
    }

    // What is held after a refusal has no meaning.
    pub(crate) fn read<F: Format>(&mut self, bytes: &'a [u8]) -> Result<(), TreeFault>
        ensures answer { Answers in_tree_fault (tree_in self.new) result (F.reading bytes.now) }
        ensures good { OnOk result (Good self.new) }
    {
        self.names.restart(bytes);
        self.links.clear();
        let mut reader = Reader::new(bytes);
        read_names::<F>(&mut reader, &mut self.names)?;
        F::read_links(&mut reader, &self.names, &mut self.links)?;
        reader.end()?;
        self.links.sort_unstable();
        Ok(())
    }
}
