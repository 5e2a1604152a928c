use crate::content::{Attribute, Element, Graph, Link};
use crate::decide::count;
use crate::read::trees::node_named;
use model::decision::Cause;
use std::alloc::{AllocError, Global};
use std::iter;

#[derive(Clone, Copy, Debug, PartialEq)]
pub enum Extent {
    Children,
    Descendants,
}

// What the scope of a resource asks for: how far the nodes go, and from which node. None where it stands as it is.
pub(crate) fn scope_of(
    resource: &Element,
    graph: &Graph,
) -> Result<Option<(Extent, usize)>, Cause> {
    let attributes = resource.attributes.as_slice();
    let Some(scope) = first(attributes, 2) else {
        return Ok(None);
    };
    if count(attributes, 2) > 1 {
        return Err(Cause::SeveralScopes);
    }
    if scope.kind != 1 {
        return Err(Cause::BadScope);
    }
    let extent = match scope.value.as_slice() {
        b"Immediate" => return Ok(None),
        b"Children" => Extent::Children,
        b"Descendants" => Extent::Descendants,
        _ => return Err(Cause::BadScope),
    };
    Ok(Some((extent, asked_node(attributes, graph)?)))
}

fn first(attributes: &[Attribute], id: u8) -> Option<&Attribute> {
    attributes.iter().find(|attribute| attribute.id == id)
}

// The node that the one resource-id names.
fn asked_node(attributes: &[Attribute], graph: &Graph) -> Result<usize, Cause> {
    let resource = first(attributes, 1).ok_or(Cause::NoSingleResourceId)?;
    if count(attributes, 1) > 1 {
        return Err(Cause::NoSingleResourceId);
    }
    node_named(graph.names.as_slice(), resource.value.as_slice()).ok_or(Cause::UnknownNode)
}

// The node that is asked for, and those below it.
pub(crate) fn nodes(
    heap: Global,
    graph: &Graph,
    extent: Extent,
    asked: usize,
) -> Result<Vec<usize>, AllocError> {
    let count = graph.names.len();
    let links = graph.links.as_slice();
    match extent {
        Extent::Children => children(heap, count, links, asked),
        Extent::Descendants => descendants(heap, count, links, asked),
    }
}

// A node, then its children by number.
fn children(
    heap: Global,
    count: usize,
    links: &[Link],
    asked: usize,
) -> Result<Vec<usize>, AllocError> {
    let others = (0..count).filter(|node| {
        *node != asked
            && links.contains(&Link {
                parent: asked,
                child: *node,
            })
    });
    iter::once(asked).chain(others).collect(heap)
}

#[derive(Clone, Copy, Debug, PartialEq, Eq, PartialOrd, Ord)]
struct Found {
    distance: usize,
    node: usize,
}

// Breadth first, then sorted by distance and number.
fn descendants(
    heap: Global,
    count: usize,
    links: &[Link],
    asked: usize,
) -> Result<Vec<usize>, AllocError> {
    let mut seen = vec![in heap; false; count]?;
    if let Some(seen) = seen.get_mut(asked) {
        *seen = true;
    }
    let mut queue = vec![in heap;
        Found {
            distance: 0,
            node: asked,
        },
    ]?;
    // By index: the queue grows while it is read. No node is queued twice.
    for next in 0..count {
        let Some(found) = queue.get(next).copied() else {
            break;
        };
        queue_children(links, found, &mut seen, &mut queue)?;
    }
    queue.sort()?;
    queue.iter().map(|found| found.node).collect(heap)
}

fn queue_children(
    links: &[Link],
    found: Found,
    seen: &mut Vec<bool>,
    queue: &mut Vec<Found>,
) -> Result<(), AllocError> {
    for link in links.iter().filter(|link| link.parent == found.node) {
        if let Some(seen) = seen.get_mut(link.child)
            && !*seen
        {
            *seen = true;
            queue.push(Found {
                distance: found.distance.saturating_add(1),
                node: link.child,
            })?;
        }
    }
    Ok(())
}
