ghost use Rattle.std.specs.Prelude.{◌≡◌, ◌+◌, ◌≤◌, IfOk, vec_len, vec_capacity};
ghost use Rattle.model.specs.Content.{attribute_fields, attribute_list, carried, new_tag, element_fields, element_list};
ghost use Rattle.wire.specs.Told.{Reads, in_field, itself};
ghost use Rattle.request.specs.Held.{attribute_of, attributes_at, element_at, elements_in, tags_held};
ghost use Rattle.request.specs.Refused.{in_element_fault, in_request_fault};
ghost use Rattle.request.specs.Tables.{Grows, span_end};

use crate::content::{Attribute, Element};
use crate::fault::{ElementFault, RequestFault};
use model::codes::STRING;
use model::item::Kind;
use model::refusal::Defect;
use wire::fault::{Fault, ItemFault};
use wire::reader::Reader;
use wire::span::Span;

fn read_attribute(reader: &mut Reader<'_>) -> Result<Attribute, Fault>
    ensures { Reads in_field attribute_of reader.old result reader.new attribute_fields }
{
    let map = reader.map(0b111)?;
    let id = reader.code(1, 255)?;
    let data_type = if map & 1 != 0 {
        reader.code(2, 255)?
    } else {
        STRING
    };
    let issuer = if map & 2 != 0 {
        Some(reader.text(1, 64)?)
    } else {
        None
    };
    let value = reader.text(0, 64)?;
    Ok(Attribute {
        included: map & 4 != 0,
        id,
        data_type,
        issuer,
        value,
    })
}

fn read_attributes(
    reader: &mut Reader<'_>,
    table: &mut Vec<Attribute>,
) -> Result<Span, ElementFault>
    requires { vec_len table.old + 8 ≤ vec_capacity table.old }
    ensures read { Reads in_element_fault (attributes_at table.new) reader.old result reader.new attribute_list }
    ensures grows { Grows 8 table.old table.new }
    ensures inside { IfOk result (λ s. span_end s ≤ vec_len table.new) }
{
    let first = table.len();
    let count = usize::from(reader.code(1, 8)?);
    for number in 0..count {
        let read = read_attribute(reader);
        let attribute = read.map_err(|fault| ItemFault::new(Kind::Attribute, number, fault))?;
        table.push_reserved(attribute);
    }
    Ok(Span { first, count })
}

fn is_carried(tag: u8, earlier: &[Element]) -> bool
    ensures { result ≡ carried tag (tags_held earlier.now) }
{
    earlier.iter().any(|element| element.tag == Some(tag))
}

fn read_tag(reader: &mut Reader<'_>, earlier: &[Element]) -> Result<u8, Fault>
    ensures { Reads in_field itself reader.old result reader.new (new_tag (tags_held earlier.now)) }
{
    let repeated = reader.fault(Defect::TagRepeated);
    let tag = reader.code(1, 255)?;
    if is_carried(tag, earlier) {
        return Err(repeated);
    }
    Ok(tag)
}

fn read_element(
    reader: &mut Reader<'_>,
    earlier: &[Element],
    table: &mut Vec<Attribute>,
) -> Result<Element, ElementFault>
    requires { vec_len table.old + 8 ≤ vec_capacity table.old }
    ensures read { Reads in_element_fault (element_at table.new) reader.old result reader.new (element_fields (tags_held earlier.now)) }
    ensures grows { Grows 8 table.old table.new }
    ensures inside { IfOk result (λ e. span_end e.attributes ≤ vec_len table.new) }
{
    let map = reader.map(0b11)?;
    let category = reader.code(1, 255)?;
    let tag = if map & 1 != 0 {
        Some(read_tag(reader, earlier)?)
    } else {
        None
    };
    let attributes = if map & 2 != 0 {
        read_attributes(reader, table)?
    } else {
        Span { first: 0, count: 0 }
    };
    Ok(Element {
        category,
        tag,
        attributes,
    })
}

pub(crate) fn read_elements(
    reader: &mut Reader<'_>,
    list: &mut Vec<Element>,
    table: &mut Vec<Attribute>,
) -> Result<(), RequestFault>
    requires empty { (vec_len list.old ≡ 0) × (vec_len table.old ≡ 0) }
    requires room { (16 ≤ vec_capacity list.old) × (128 ≤ vec_capacity table.old) }
    ensures read { Reads in_request_fault (λ bytes done. elements_in bytes list.new table.new) reader.old result reader.new element_list }
    ensures room { (vec_capacity list.new ≡ vec_capacity list.old) × (vec_capacity table.new ≡ vec_capacity table.old) }
    ensures few { vec_len list.new ≤ 16 }
{
    let count = usize::from(reader.code(1, 16)?);
    for number in 0..count {
        let read = read_element(reader, list.as_slice(), table);
        let element = read.map_err(|fault| ItemFault::new(Kind::Element, number, fault))?;
        list.push_reserved(element);
    }
    Ok(())
}
