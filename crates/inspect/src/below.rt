use crate::file::File;
use crate::opened::Opened;
use commandline::command::{Source, TreeKind};
use report::console::Console;
use report::failed::Failed;
use report::print::of_tree::print_reached;
use tree::Tree;
use tree::extent::Extent;
use tree::reach::Reach;
use tree_files::linked::LinkedTree;
use tree_files::paths::PathTree;

// The nodes that links lead to from the node of a name.
pub fn below<K: Copy + Into<TreeKind>>(
    console: Console<'_>,
    name: &str,
    source: &Source<K>,
    children: bool,
) -> Result<(), Failed> {
    let extent = if children {
        Extent::Children
    } else {
        Extent::Descendants
    };
    let file = File::read(console.rt, source.file.as_str())?;
    match source.kind.into() {
        TreeKind::Linked => reach::<LinkedTree<'_>>(console, &file, name, extent),
        TreeKind::Paths => reach::<PathTree<'_>>(console, &file, name, extent),
    }
}

fn reach<'a, T: Opened<'a> + Tree>(
    console: Console<'_>,
    file: &'a File<'_>,
    name: &str,
    extent: Extent,
) -> Result<(), Failed> {
    let tree: T = file.open(console)?;
    let Some(node) = tree.find(name.as_bytes()) else {
        eprintln!(console.rt; "vamluyak: no node is named '{name}'")?;
        return Err(Failed);
    };
    let mut reach = Reach::new(console.rt.alloc())?;
    reach.search(&tree, node, extent);
    Ok(print_reached(console, &tree, reach.nodes())?)
}
