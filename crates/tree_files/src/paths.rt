ghost use Rattle.std.specs.Prelude.{true};
ghost use Rattle.model.specs.TreeFiles.{read_path_tree, hollow};
ghost use Rattle.model.specs.TreeSpelling.{PathSpelling};
ghost use Rattle.tree_files.specs.Format.{paths_after, paths_in_parts, paths_exactly, paths_besides};
ghost use Rattle.tree_files.specs.Segments.{BySegments};

use crate::fault::TreeFault;
use crate::file::TreeFile;
use crate::format::Format;
use crate::names::Names;
use crate::read::parents::{has_empty_segment, link_paths};
use wire::reader::Reader;

// Names alone, which are paths, linked from parent to child.
pub struct Paths;

pub type PathTree<'a> = TreeFile<'a, Paths>;

impl Format for Paths {
    ghost reading = { read_path_tree };

    ghost Spelling = { PathSpelling };

    ghost Besides = { BySegments };

    ghost wrong = { hollow true };

    ghost after_names = { paths_after };

    fn is_wrong(name: &[u8]) -> bool {
        has_empty_segment(name)
    }

    fn read_links(
        _reader: &mut Reader<'_>,
        names: &Names<'_>,
        links: &mut Vec<(usize, usize)>,
    ) -> Result<(), TreeFault> {
        link_paths(names, links);
        Ok(())
    }

    ghost in_parts = { paths_in_parts };

    ghost accepted_exactly = { paths_exactly };

    ghost accepted_besides = { paths_besides };
}
