use crate::content::{Graph, Link};
use crate::error::Unread;
use crate::expand::TreeFile;
use crate::input::Input;
use std::alloc::{AllocError, Global};
use std::convert::AsSlice;

pub(crate) fn read_tree<B: AsSlice<u8>>(heap: Global, file: &TreeFile<B>) -> Result<Graph, Unread> {
    match file {
        TreeFile::Linked(bytes) => read_linked(heap, bytes.as_slice()),
        TreeFile::Paths(bytes) => read_paths(heap, bytes.as_slice()),
    }
}

fn read_linked(heap: Global, bytes: &[u8]) -> Result<Graph, Unread> {
    let mut input = Input::new(bytes);
    let names = read_names(heap, &mut input)?;
    let links = read_links(heap, &mut input, names.len())?;
    input.end()?;
    Ok(Graph { names, links })
}

fn read_paths(heap: Global, bytes: &[u8]) -> Result<Graph, Unread> {
    let mut input = Input::new(bytes);
    let names = read_names(heap, &mut input)?;
    input.end()?;
    if names.iter().any(|name| has_empty_segment(name.as_slice())) {
        return Err(Unread::Malformed);
    }
    let links = path_links(heap, names.as_slice())?;
    Ok(Graph { names, links })
}

fn read_names(heap: Global, input: &mut Input) -> Result<Vec<Vec<u8>>, Unread> {
    let count = input.wide(1024)?;
    let mut names = Vec::new(heap);
    for _ in 0..count {
        let name = input.text(heap, 1, 64)?;
        if names.contains(&name) {
            return Err(Unread::Malformed);
        }
        names.push(name)?;
    }
    Ok(names)
}

// The number of the node that has a name.
pub(crate) fn node_named(names: &[Vec<u8>], name: &[u8]) -> Option<usize> {
    names.iter().position(|other| other.as_slice() == name)
}

fn read_links(heap: Global, input: &mut Input, nodes: usize) -> Result<Vec<Link>, Unread> {
    let count = input.wide(4096)?;
    (0..count)
        .map(|_| -> Result<Link, Unread> {
            let parent = input.wide(65535)?;
            let child = input.wide(65535)?;
            if parent >= nodes || child >= nodes {
                return Err(Unread::Malformed);
            }
            Ok(Link { parent, child })
        })
        .try_collect(heap)
}

// At the start, at the end, or between two bytes '/'.
fn has_empty_segment(path: &[u8]) -> bool {
    path.is_empty()
        || path.starts_with(b"/")
        || path.ends_with(b"/")
        || path.windows(2).any(|pair| matches!(pair, b"//"))
}

// A link for each two paths of which one is the other with one more segment.
fn path_links(heap: Global, names: &[Vec<u8>]) -> Result<Vec<Link>, AllocError> {
    let mut links = Vec::new(heap);
    for (parent, path) in names.iter().enumerate() {
        for (child, longer) in names.iter().enumerate() {
            if is_child(path.as_slice(), longer.as_slice()) {
                links.push(Link { parent, child })?;
            }
        }
    }
    Ok(links)
}

fn is_child(parent: &[u8], child: &[u8]) -> bool {
    child
        .strip_prefix(parent)
        .and_then(|rest| rest.strip_prefix(b"/"))
        .is_some_and(|segment| !segment.contains(&b'/'))
}
