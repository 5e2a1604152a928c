use crate::console::Console;
use crate::text::Text;
use std::io;
use tree::Tree;
use tree::reach::Reached;

// The nodes of a tree, each with its children.
pub fn print_tree<T: Tree>(rt: &HostRuntime, tree: &T) -> io::Result<()> {
    let count = tree.count();
    println!(rt; "nodes: {count}")?;
    // By number: a tree answers questions, and no slice holds its nodes.
    for node in 0..count {
        if let Some(name) = tree.name(node) {
            let name = Text(name);
            print!(rt; "node {node}: {name}")?;
        }
        print_children(rt, tree, node, count)?;
        rt.println("")?;
    }
    Ok(())
}

fn print_children<T: Tree>(
    rt: &HostRuntime,
    tree: &T,
    node: usize,
    count: usize,
) -> io::Result<()> {
    let mut before = ", children ";
    let mut from = 0usize;
    // A count: a node has no more children than there are nodes.
    for _ in 0..count {
        let Some(child) = tree.child(node, from) else {
            return Ok(());
        };
        print!(rt; "{before}{child}")?;
        before = " ";
        from = child.saturating_add(1);
    }
    Ok(())
}

// The nodes reached, nearest first.
pub fn print_reached<T: Tree>(console: Console<'_>, tree: &T, nodes: &[Reached]) -> io::Result<()> {
    for &Reached { node, distance } in nodes {
        let Some(name) = tree.name(node) else {
            continue;
        };
        let name = Text(name);
        if console.tsv {
            println!(console.rt; "{distance}\t{node}\t{name}")?;
        } else {
            println!(console.rt; "distance {distance}: node {node} {name}")?;
        }
    }
    Ok(())
}
