ghost use Rattle.model.specs.TreeFiles.{read_linked_tree, any_name};
ghost use Rattle.model.specs.TreeSpelling.{LinkedSpelling};
ghost use Rattle.tree_files.specs.Format.{AnyTree, links_after, linked_in_parts, linked_exactly, linked_besides};

use crate::fault::TreeFault;
use crate::file::TreeFile;
use crate::format::Format;
use crate::names::Names;
use crate::read::links::read_links;
use wire::reader::Reader;

// Names, and then links between their nodes.
pub struct Linked;

pub type LinkedTree<'a> = TreeFile<'a, Linked>;

impl Format for Linked {
    ghost reading = { read_linked_tree };

    ghost Spelling = { LinkedSpelling };

    // Nothing more.
    ghost Besides = { AnyTree };

    ghost wrong = { any_name };

    ghost after_names = { links_after };

    fn is_wrong(_name: &[u8]) -> bool {
        false
    }

    fn read_links(
        reader: &mut Reader<'_>,
        names: &Names<'_>,
        links: &mut Vec<(usize, usize)>,
    ) -> Result<(), TreeFault> {
        read_links(reader, names.len(), links)
    }

    ghost in_parts = { linked_in_parts };

    ghost accepted_exactly = { linked_exactly };

    ghost accepted_besides = { linked_besides };
}
