use crate::request::Request;
use model::item::{Item, Kind};
use model::refusal::{Defect, Refusal};
use std::alloc::{AllocError, Global};
use std::test::Fail;

// Why the bytes are refused, if they are.
fn refused(heap: Global, bytes: &[u8]) -> Result<Option<Refusal>, AllocError> {
    let mut request = Request::new(heap)?;
    match request.open(bytes) {
        Ok(()) => Ok(None),
        Err(fault) => Ok(Some(Refusal::from(fault))),
    }
}

fn in_file(defect: Defect, place: usize) -> Option<Refusal> {
    Some(Refusal {
        defect,
        outer: None,
        inner: None,
        place,
    })
}

fn in_item(kind: Kind, number: usize, defect: Defect, place: usize) -> Option<Refusal> {
    Some(Refusal {
        defect,
        outer: Some(Item { kind, number }),
        inner: None,
        place,
    })
}

fn in_attribute(element: usize, number: usize, defect: Defect, place: usize) -> Option<Refusal> {
    Some(Refusal {
        defect,
        outer: Some(Item {
            kind: Kind::Element,
            number: element,
        }),
        inner: Some(Item {
            kind: Kind::Attribute,
            number,
        }),
        place,
    })
}

#[test]
fn refusals_of_the_file(rt: HostRuntime) -> Result<(), Fail> {
    let heap = rt.alloc();
    assert_eq!(rt; refused(heap, &[])?, in_file(Defect::EndsEarly, 0));
    assert_eq!(rt; refused(heap, &[4])?, in_file(Defect::UnnamedBit, 0));
    assert_eq!(rt; refused(heap, &[1, 2])?, in_file(Defect::OutOfRange, 1));
    assert_eq!(rt; refused(heap, &[0, 0])?, in_file(Defect::OutOfRange, 1));
    assert_eq!(rt; refused(heap, &[0, 17])?, in_file(Defect::OutOfRange, 1));
    assert_eq!(rt; refused(heap, &[0, 1, 0, 1])?, None);
    assert_eq!(rt;
        refused(heap, &[0, 1, 0, 1, 0])?,
        in_file(Defect::BytesLeft, 4)
    );
    assert_eq!(rt;
        refused(heap, &[2, 1, 0, 1])?,
        in_file(Defect::EndsEarly, 4)
    );
    assert_eq!(rt;
        refused(heap, &[2, 1, 0, 1, 0])?,
        in_file(Defect::OutOfRange, 4)
    );
    Ok(())
}

#[test]
fn refusals_of_elements(rt: HostRuntime) -> Result<(), Fail> {
    let heap = rt.alloc();
    let element = Kind::Element;
    assert_eq!(rt;
        refused(heap, &[0, 16])?,
        in_item(element, 0, Defect::EndsEarly, 2)
    );
    assert_eq!(rt;
        refused(heap, &[0, 1, 4])?,
        in_item(element, 0, Defect::UnnamedBit, 2)
    );
    assert_eq!(rt;
        refused(heap, &[0, 1, 0, 0])?,
        in_item(element, 0, Defect::OutOfRange, 3)
    );
    assert_eq!(rt;
        refused(heap, &[0, 2, 1, 2, 7, 1, 3, 7])?,
        in_item(element, 1, Defect::TagRepeated, 7)
    );
    assert_eq!(rt;
        refused(heap, &[0, 1, 2, 1, 9])?,
        in_item(element, 0, Defect::OutOfRange, 4)
    );
    Ok(())
}

#[test]
fn refusals_of_references(rt: HostRuntime) -> Result<(), Fail> {
    let heap = rt.alloc();
    let reference = Kind::Reference;
    assert_eq!(rt;
        refused(heap, &[2, 1, 0, 1, 1])?,
        in_item(reference, 0, Defect::EndsEarly, 5)
    );
    assert_eq!(rt;
        refused(heap, &[2, 1, 0, 1, 2, 1, 9, 17])?,
        in_item(reference, 1, Defect::OutOfRange, 7)
    );
    assert_eq!(rt;
        refused(heap, &[2, 1, 0, 1, 1, 2, 9, 0])?,
        in_item(reference, 0, Defect::OutOfRange, 7)
    );
    Ok(())
}

#[test]
fn refusals_of_attributes(rt: HostRuntime) -> Result<(), Fail> {
    let heap = rt.alloc();
    assert_eq!(rt;
        refused(heap, &[0, 1, 2, 1, 1])?,
        in_attribute(0, 0, Defect::EndsEarly, 5)
    );
    assert_eq!(rt;
        refused(heap, &[0, 1, 2, 1, 1, 8])?,
        in_attribute(0, 0, Defect::UnnamedBit, 5)
    );
    assert_eq!(rt;
        refused(heap, &[0, 1, 2, 1, 1, 1, 1, 1])?,
        in_attribute(0, 0, Defect::OutOfRange, 7)
    );
    assert_eq!(rt;
        refused(heap, &[0, 1, 2, 1, 1, 2, 1, 0])?,
        in_attribute(0, 0, Defect::OutOfRange, 7)
    );
    assert_eq!(rt;
        refused(heap, &[0, 1, 2, 1, 1, 0, 1, 65])?,
        in_attribute(0, 0, Defect::OutOfRange, 7)
    );
    assert_eq!(rt;
        refused(heap, &[0, 1, 2, 1, 2, 0, 1, 0, 0, 1, 3, 7])?,
        in_attribute(0, 1, Defect::EndsEarly, 12)
    );
    Ok(())
}

// A value of 64 bytes is read, and handed out as the part of the bytes that it is.
#[test]
fn longest_value(rt: HostRuntime) -> Result<(), Fail> {
    let mut bytes = [0x61u8; 72];
    bytes[0] = 0;
    bytes[1] = 1;
    bytes[2] = 2;
    bytes[3] = 2;
    bytes[4] = 1;
    bytes[5] = 0;
    bytes[6] = 3;
    bytes[7] = 64;
    let mut request = Request::new(rt.alloc())?;
    assert!(rt; request.open(&bytes).is_ok());
    let attributes = request.attributes(0);
    assert!(rt; attributes.len() == 1);
    assert_eq!(rt; request.text(attributes[0].value).len(), 64);
    assert_eq!(rt; attributes[0].value.first, 8);
    Ok(())
}

// A refusal leaves the request that was opened before.
#[test]
fn refusal_keeps(rt: HostRuntime) -> Result<(), Fail> {
    let mut request = Request::new(rt.alloc())?;
    assert_eq!(rt; request.elements().len(), 0);
    assert!(rt; request.open(&[1, 0]).is_err());
    assert!(rt; request.open(&[1, 1, 1, 1, 2, 7]).is_ok());
    assert!(rt; request.open(&[0, 2, 0, 1, 0, 2, 0]).is_err());
    assert_eq!(rt; request.elements().len(), 1);
    assert!(rt; request.combined());
    Ok(())
}
