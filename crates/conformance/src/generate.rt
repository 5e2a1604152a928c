ghost use Rattle.std.specs.Prelude.{◌<◌, IfOk};

use crate::case::Case;
use crate::random::Random;
use expander::expand::{PointFile, TreeFile};
use std::alloc::{AllocError, Global};

// How large a case may be: elements of the request, nodes of the tree.
#[derive(Clone, Copy)]
pub struct Size {
    pub elements: u8,
    pub nodes: u8,
}

// A few words, so that names, values and texts often meet.
fn word(random: &mut Random) -> &'static [u8] {
    match random.below(9) {
        0 => b"a",
        1 => b"b",
        2 => b"c",
        3 => b"a/b",
        4 => b"a/b/c",
        5 => b"ab",
        6 => b"a/c",
        7 => b"b/a",
        _ => b"s",
    }
}

fn scope(random: &mut Random) -> &'static [u8] {
    match random.below(6) {
        0 => b"Immediate",
        1 => b"descendants",
        2 => b"Children",
        _ => b"Descendants",
    }
}

fn put_text(to: &mut Vec<u8>, text: &[u8]) -> Result<(), AllocError> {
    to.push(text.len().min(255) as u8)?;
    to.extend_from_slice(text)
}

// An attribute, or a condition where a category is given.
fn put_attribute(
    to: &mut Vec<u8>,
    random: &mut Random,
    category: Option<u8>,
    id: u8,
) -> Result<(), AllocError> {
    let typed = random.once_in(8);
    let issued = random.once_in(6);
    to.push(u8::from(typed) | u8::from(issued) << 1 | random.byte(2) << 2)?;
    if let Some(category) = category {
        to.push(category)?;
    }
    to.push(id)?;
    if typed {
        to.push(2)?;
    }
    if issued {
        put_text(to, word(random))?;
    }
    if id == 2 && random.below(8) > 0 {
        put_text(to, scope(random))
    } else {
        put_text(to, word(random))
    }
}

// A resource often has one resource-id and one scope.
fn put_resource(to: &mut Vec<u8>, random: &mut Random) -> Result<(), AllocError> {
    to.push(2)?;
    put_attribute(to, random, None, 1)?;
    put_attribute(to, random, None, 2)
}

fn put_attributes(to: &mut Vec<u8>, random: &mut Random, category: u8) -> Result<(), AllocError> {
    if category == 1 && random.below(4) > 0 {
        return put_resource(to, random);
    }
    let count = 1 + random.byte(3);
    to.push(count)?;
    for _ in 0..count {
        let id = 1 + random.byte(5);
        put_attribute(to, random, None, id)?;
    }
    Ok(())
}

// Its tag is one more than its number.
fn put_element(to: &mut Vec<u8>, random: &mut Random, number: u8) -> Result<(), AllocError> {
    let tagged = random.below(8) > 0;
    let filled = random.below(6) > 0;
    to.push(u8::from(tagged) | u8::from(filled) << 1)?;
    let category = 1 + random.byte(4);
    to.push(category)?;
    if tagged {
        to.push(number.saturating_add(1))?;
    }
    if filled {
        return put_attributes(to, random, category);
    }
    Ok(())
}

// Tags of elements; now and then one that none carries.
fn put_references(to: &mut Vec<u8>, random: &mut Random, elements: u8) -> Result<(), AllocError> {
    let count = 1 + random.byte(3);
    to.push(count)?;
    for _ in 0..count {
        let tags = 1 + random.byte(elements.min(16));
        to.push(tags)?;
        for _ in 0..tags {
            let unknown = random.once_in(24);
            to.push(1 + random.byte(elements.min(16)) + u8::from(unknown) * 32)?;
        }
    }
    Ok(())
}

fn request(heap: Global, random: &mut Random, size: Size) -> Result<Vec<u8>, AllocError> {
    let mut to = Vec::new(heap);
    let combined = random.byte(2);
    let referenced = random.once_in(2);
    to.push(combined | u8::from(referenced) << 1)?;
    if combined == 1 {
        to.push(1)?;
    }
    let count = 1 + random.byte(size.elements.min(16));
    to.push(count)?;
    for number in 0..count {
        put_element(&mut to, random, number)?;
    }
    if referenced {
        put_references(&mut to, random, count)?;
    }
    Ok(to)
}

// A word that stands at most once: the first nodes have the words above, the others a letter and a number.
fn put_name(to: &mut Vec<u8>, random: &mut Random, node: u8) -> Result<(), AllocError> {
    match node {
        0 => put_text(to, b"a"),
        1 => put_text(to, b"b"),
        2 => put_text(to, b"a/b"),
        3 => put_text(to, b"ab"),
        4 => put_text(to, b"a/b/c"),
        5 => put_text(to, b"a/c"),
        _ if random.once_in(40) => put_text(to, word(random)),
        _ => put_text(to, &[b'n', b'0' + node / 10 % 10, b'0' + node % 10]),
    }
}

// How many, less than 100.
fn put_names(to: &mut Vec<u8>, random: &mut Random, size: Size) -> Result<u8, AllocError>
    ensures { IfOk result (λ count. count < 100) }
{
    let count = random.byte(size.nodes.min(100));
    to.push(0)?;
    to.push(count)?;
    for node in 0..count {
        put_name(to, random, node)?;
    }
    Ok(count)
}

fn linked_tree(heap: Global, random: &mut Random, size: Size) -> Result<Vec<u8>, AllocError> {
    let mut to = Vec::new(heap);
    let count = put_names(&mut to, random, size)?;
    let links = if count == 0 {
        0
    } else {
        random.byte(count) + random.byte(count)
    };
    to.push(0)?;
    to.push(links)?;
    for _ in 0..links {
        to.push(0)?;
        to.push(random.byte(count))?;
        to.push(0)?;
        to.push(random.byte(count))?;
    }
    Ok(to)
}

fn path_tree(heap: Global, random: &mut Random, size: Size) -> Result<Vec<u8>, AllocError> {
    let mut to = Vec::new(heap);
    put_names(&mut to, random, size)?;
    Ok(to)
}

fn policy(heap: Global, random: &mut Random) -> Result<Vec<u8>, AllocError> {
    let mut to = Vec::new(heap);
    let count = 1 + random.byte(4);
    to.push(count)?;
    for _ in 0..count {
        let conditions = random.byte(4);
        to.push(u8::from(conditions > 0))?;
        to.push(1 + random.byte(2))?;
        if conditions > 0 {
            to.push(conditions)?;
        }
        for _ in 0..conditions {
            let category = 1 + random.byte(4);
            let id = 1 + random.byte(5);
            put_attribute(&mut to, random, Some(category), id)?;
        }
    }
    Ok(to)
}

fn grants(heap: Global, random: &mut Random) -> Result<Vec<u8>, AllocError> {
    let mut to = Vec::new(heap);
    let count = random.byte(12);
    to.push(0)?;
    to.push(count)?;
    for _ in 0..count {
        put_text(&mut to, word(random))?;
        put_text(&mut to, word(random))?;
        put_text(&mut to, word(random))?;
    }
    Ok(to)
}

// Damages some bytes: one is changed, or the last is cut off, or one is added.
fn damage(random: &mut Random, bytes: &mut Vec<u8>) -> Result<(), AllocError> {
    if random.once_in(4) {
        let _ = bytes.pop();
        return Ok(());
    }
    if random.once_in(4) {
        bytes.push(random.byte(255))?;
        return Ok(());
    }
    let place = random.below(bytes.len() as u64) as usize;
    let byte = random.byte(70);
    if let Some(there) = bytes.get_mut(place) {
        *there = byte;
    }
    Ok(())
}

// A file as it stands, or damaged once in so many times.
fn perhaps_damaged(
    mut bytes: Vec<u8>,
    random: &mut Random,
    damaged: u64,
) -> Result<Vec<u8>, AllocError> {
    if random.once_in(damaged) {
        damage(random, &mut bytes)?;
    }
    Ok(bytes)
}

// The files of one enquiry; one in so many of the files is damaged.
pub fn case(
    heap: Global,
    random: &mut Random,
    size: Size,
    damaged: u64,
) -> Result<Case, AllocError> {
    let request = perhaps_damaged(request(heap, random, size)?, random, damaged)?;
    let tree = if random.once_in(2) {
        TreeFile::Linked(perhaps_damaged(linked_tree(heap, random, size)?, random, damaged)?)
    } else {
        TreeFile::Paths(perhaps_damaged(path_tree(heap, random, size)?, random, damaged)?)
    };
    let point = if random.once_in(2) {
        PointFile::Rules(perhaps_damaged(policy(heap, random)?, random, damaged)?)
    } else {
        PointFile::Grants(perhaps_damaged(grants(heap, random)?, random, damaged)?)
    };
    Ok(Case {
        request,
        tree,
        point,
    })
}
