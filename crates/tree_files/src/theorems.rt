ghost use Rattle.std.specs.Prelude.{◌≡◌, OnErr, OnOk};
ghost use Rattle.model.specs.TreeFiles.{read_linked_tree, read_path_tree};
ghost use Rattle.model.specs.TreeSpelling.{LinkedSpelling, PathSpelling};
ghost use Rattle.tree_files.specs.Answered.{answered, Opened};
ghost use Rattle.tree_files.specs.Refused.{in_tree_fault};
ghost use Rattle.tree_files.specs.Segments.{BySegments};
ghost use Rattle.tree_files.specs.Trees.{tree_of_file};

use crate::fault::TreeFault;
use crate::linked::LinkedTree;
use crate::paths::PathTree;

// What opening promises at each format, in the words of the layouts.

pub fn linked_trees_open<'a>(linked: &mut LinkedTree<'a>, bytes: &'a [u8]) -> Result<(), TreeFault>
    ensures answer { answered in_tree_fault (tree_of_file linked.new) result ≡ read_linked_tree bytes.now }
    ensures spelled { Opened LinkedSpelling bytes.now (tree_of_file linked.new) result }
    ensures left { OnErr result (tree_of_file linked.new ≡ tree_of_file linked.old) }
{
    linked.open(bytes)
}

pub fn path_trees_open<'a>(paths: &mut PathTree<'a>, bytes: &'a [u8]) -> Result<(), TreeFault>
    ensures answer { answered in_tree_fault (tree_of_file paths.new) result ≡ read_path_tree bytes.now }
    ensures spelled { Opened PathSpelling bytes.now (tree_of_file paths.new) result }
    ensures left { OnErr result (tree_of_file paths.new ≡ tree_of_file paths.old) }
    ensures segments { OnOk result (BySegments (tree_of_file paths.new)) }
{
    paths.open(bytes)
}
