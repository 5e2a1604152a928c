use crate::content::{Asked, Attribute, Element};
use crate::error::Unread;
use crate::input::Input;
use std::alloc::Global;

pub(crate) fn read_request(heap: Global, bytes: &[u8]) -> Result<Asked, Unread> {
    let mut input = Input::new(bytes);
    let map = input.number(0, 3)?;
    let combined = map & 1 != 0;
    if combined {
        input.number(1, 1)?;
    }
    let elements = read_elements(heap, &mut input)?;
    let references = if map & 2 != 0 {
        read_references(heap, &mut input)?
    } else {
        Vec::new(heap)
    };
    input.end()?;
    Ok(Asked {
        combined,
        elements,
        references,
    })
}

fn read_elements(heap: Global, input: &mut Input) -> Result<Vec<Element>, Unread> {
    let count = input.number(1, 16)?;
    let mut elements = Vec::new(heap);
    for _ in 0..count {
        let element = read_element(heap, input)?;
        if let Some(tag) = element.tag
            && tagged(elements.as_slice(), tag).is_some()
        {
            return Err(Unread::Malformed);
        }
        elements.push(element)?;
    }
    Ok(elements)
}

// The number of the element that carries a tag.
pub(crate) fn tagged(elements: &[Element], tag: u8) -> Option<usize> {
    elements.iter().position(|element| element.tag == Some(tag))
}

fn read_element(heap: Global, input: &mut Input) -> Result<Element, Unread> {
    let map = input.number(0, 3)?;
    let category = input.number(1, 255)?;
    let tag = if map & 1 != 0 {
        Some(input.number(1, 255)?)
    } else {
        None
    };
    let count = if map & 2 != 0 { input.number(1, 8)? } else { 0 };
    let attributes = (0..count)
        .map(|_| -> Result<Attribute, Unread> {
            let map = input.number(0, 7)?;
            read_attribute(heap, input, map)
        })
        .try_collect(heap)?;
    Ok(Element {
        category,
        tag,
        attributes,
    })
}

// An attribute or a condition, from its id on.
pub(crate) fn read_attribute(
    heap: Global,
    input: &mut Input,
    map: u8,
) -> Result<Attribute, Unread> {
    let id = input.number(1, 255)?;
    let kind = if map & 1 != 0 {
        input.number(2, 255)?
    } else {
        1
    };
    let issuer = if map & 2 != 0 {
        Some(input.text(heap, 1, 64)?)
    } else {
        None
    };
    let value = input.text(heap, 0, 64)?;
    Ok(Attribute {
        id,
        kind,
        issuer,
        marked: map & 4 != 0,
        value,
    })
}

fn read_references(heap: Global, input: &mut Input) -> Result<Vec<Vec<u8>>, Unread> {
    let count = input.number(1, 16)?;
    (0..count)
        .map(|_| -> Result<Vec<u8>, Unread> { read_tags(heap, input) })
        .try_collect(heap)
}

fn read_tags(heap: Global, input: &mut Input) -> Result<Vec<u8>, Unread> {
    let count = input.number(1, 16)?;
    (0..count)
        .map(|_| -> Result<u8, Unread> { input.number(1, 255) })
        .try_collect(heap)
}
