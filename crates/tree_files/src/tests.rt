use crate::fault::TreeFault;
use crate::linked::LinkedTree;
use crate::paths::PathTree;
use model::refusal::{Defect, Refusal};
use std::process::Abort;
use std::test::Fail;
use tree::Tree;
use tree::extent::Extent;
use tree::reach::Reach;

// Nodes a, b, c, d with links a to d, a to c, d to b.
const FOUR: [u8; 24] = [
    0, 4, 1, b'a', 1, b'b', 1, b'c', 1, b'd', 0, 3, 0, 0, 0, 3, 0, 0, 0, 2, 0, 3, 0, 1,
];

// Nodes a and b with links a to b and b to a.
const CIRCLE: [u8; 16] = [0, 2, 1, b'a', 1, b'b', 0, 2, 0, 0, 0, 1, 0, 1, 0, 0];

// Paths n, n/p, n/p/m, np, n/q/m.
const PATHS: [u8; 24] = [
    0, 5, 1, b'n', 3, b'n', b'/', b'p', 5, b'n', b'/', b'p', b'/', b'm', 2, b'n', b'p', 5, b'n',
    b'/', b'q', b'/', b'm', 0,
];

// The nodes that are reached from the first, each with its distance.
fn reaches<T: Tree>(
    rt: &(impl Abort + AllocGlobal),
    tree: &T,
    extent: Extent,
    expected: &[(usize, usize)],
) -> Result<(), Fail> {
    let mut reach = Reach::new(rt.alloc())?;
    reach.search(tree, 0, extent);
    assert_eq!(rt; reach.nodes().len(), expected.len());
    for (reached, (node, distance)) in reach.nodes().iter().zip(expected) {
        assert_eq!(rt; reached.node, *node);
        assert_eq!(rt; reached.distance, *distance);
    }
    Ok(())
}

fn refused(
    rt: &impl Abort,
    res: Result<(), TreeFault>,
    defect: Defect,
    layer: u8,
    place: usize,
) -> Result<(), Fail> {
    let Err(fault) = res else {
        return Err(Fail::new("accepted"));
    };
    let refusal = Refusal::from(fault);
    assert_eq!(rt; refusal.defect, defect);
    assert_eq!(rt; refusal.layer(), layer);
    assert_eq!(rt; refusal.place, place);
    Ok(())
}

#[test]
fn linked_trees_are_reached(rt: HostRuntime) -> Result<(), Fail> {
    let mut tree = LinkedTree::new(rt.alloc())?;
    assert!(rt; tree.open(&FOUR).is_ok());
    reaches(
        &rt,
        &tree,
        Extent::Descendants,
        &[(0, 0), (2, 1), (3, 1), (1, 2)],
    )?;
    reaches(&rt, &tree, Extent::Children, &[(0, 0), (2, 1), (3, 1)])?;
    assert_eq!(rt; tree.find(b"d"), Some(3));
    assert_eq!(rt; tree.find(b"e"), None);
    assert!(rt; tree.open(&CIRCLE).is_ok());
    reaches(&rt, &tree, Extent::Descendants, &[(0, 0), (1, 1)])
}

#[test]
fn path_trees_are_reached(rt: HostRuntime) -> Result<(), Fail> {
    let mut tree = PathTree::new(rt.alloc())?;
    assert!(rt; tree.open(&PATHS[0..23]).is_ok());
    reaches(&rt, &tree, Extent::Descendants, &[(0, 0), (1, 1), (2, 2)])?;
    assert_eq!(rt; tree.child(1, 0), Some(2));
    refused(&rt, tree.open(&PATHS), Defect::BytesLeft, 1, 23)?;
    assert_eq!(rt; tree.count(), 5);
    Ok(())
}

#[test]
fn linked_trees_are_refused(rt: HostRuntime) -> Result<(), Fail> {
    let mut tree = LinkedTree::new(rt.alloc())?;
    refused(&rt, tree.open(&[]), Defect::EndsEarly, 1, 0)?;
    refused(&rt, tree.open(&[4, 1]), Defect::OutOfRange, 1, 0)?;
    refused(&rt, tree.open(&[0, 1, 0]), Defect::OutOfRange, 2, 2)?;
    refused(
        &rt,
        tree.open(&[0, 2, 1, b'a', 1, b'a']),
        Defect::NameRepeated,
        2,
        4,
    )?;
    refused(
        &rt,
        tree.open(&[0, 1, 1, b'a', 0, 1, 0, 0, 0, 1]),
        Defect::NoSuchNode,
        2,
        8,
    )?;
    refused(
        &rt,
        tree.open(&[0, 1, 1, b'a', 0, 0, 0]),
        Defect::BytesLeft,
        1,
        6,
    )
}

#[test]
fn path_trees_are_refused(rt: HostRuntime) -> Result<(), Fail> {
    let mut tree = PathTree::new(rt.alloc())?;
    refused(
        &rt,
        tree.open(&[0, 1, 2, b'a', b'/']),
        Defect::EmptySegment,
        2,
        2,
    )?;
    refused(
        &rt,
        tree.open(&[0, 2, 1, b'/', 1, b'/']),
        Defect::EmptySegment,
        2,
        2,
    )
}
