use crate::content::{Attribute, Element};
use std::alloc::{AllocError, Global};

// The elements of some numbers, as they are asked about for the node of a name or for none.
pub(crate) fn individual(
    heap: Global,
    elements: &[Element],
    numbers: &[usize],
    name: Option<&[u8]>,
) -> Result<Vec<Element>, AllocError> {
    numbers
        .iter()
        .filter_map(|number| elements.get(*number))
        .map(|element| -> Result<Element, AllocError> { shown(heap, element, name) })
        .try_collect(heap)
}

// An element without its tag; for a node, a resource is without its scope, and has the node's name.
fn shown(heap: Global, element: &Element, name: Option<&[u8]>) -> Result<Element, AllocError> {
    let name = name.filter(|_| element.category == 1);
    let mut attributes = Vec::new(heap);
    for attribute in &element.attributes {
        if name.is_some() && attribute.id == 2 {
            continue;
        }
        let mut copy = attribute.clone()?;
        if let Some(name) = name
            && copy.id == 1
        {
            copy.value = Vec::from_slice(heap, name)?;
        }
        attributes.push(copy)?;
    }
    Ok(Element {
        category: element.category,
        tag: None,
        attributes,
    })
}

// A single request as bytes.
pub(crate) fn written(heap: Global, single: &[Element]) -> Result<Vec<u8>, AllocError> {
    let mut bytes = vec![in heap; 0, low_byte(single.len())]?;
    for element in single {
        write_element(&mut bytes, element)?;
    }
    Ok(bytes)
}

// Every count and length of a request is less than 256.
fn low_byte(number: usize) -> u8 {
    (number & 0xff) as u8
}

fn write_element(bytes: &mut Vec<u8>, element: &Element) -> Result<(), AllocError> {
    let count = element.attributes.len();
    bytes.push(u8::from(count > 0) << 1)?;
    bytes.push(element.category)?;
    if count > 0 {
        bytes.push(low_byte(count))?;
    }
    for attribute in &element.attributes {
        write_attribute(bytes, attribute)?;
    }
    Ok(())
}

fn write_attribute(bytes: &mut Vec<u8>, attribute: &Attribute) -> Result<(), AllocError> {
    let typed = attribute.kind != 1;
    let issued = attribute.issuer.is_some();
    bytes.push(u8::from(typed) | u8::from(issued) << 1 | u8::from(attribute.marked) << 2)?;
    bytes.push(attribute.id)?;
    if typed {
        bytes.push(attribute.kind)?;
    }
    if let Some(issuer) = &attribute.issuer {
        write_text(bytes, issuer.as_slice())?;
    }
    write_text(bytes, attribute.value.as_slice())
}

fn write_text(bytes: &mut Vec<u8>, text: &[u8]) -> Result<(), AllocError> {
    bytes.push(low_byte(text.len()))?;
    bytes.extend_from_slice(text)?;
    Ok(())
}
