ghost use Rattle.std.specs.Prelude.{◌≡◌, ◌+◌, ◌≤◌, IfOk, vec_len, vec_capacity};
ghost use Rattle.model.specs.Content.{reference_fields, reference_list};
ghost use Rattle.wire.specs.Told.{Reads, in_field};
ghost use Rattle.request.specs.Held.{tags_at, references_in};
ghost use Rattle.request.specs.Refused.{in_request_fault};
ghost use Rattle.request.specs.Tables.{Grows, span_end, longest};

use crate::fault::{ElementFault, RequestFault};
use model::item::Kind;
use wire::fault::{Fault, ItemFault};
use wire::reader::Reader;
use wire::span::Span;

fn read_reference(reader: &mut Reader<'_>, table: &mut Vec<u8>) -> Result<Span, Fault>
    requires { vec_len table.old + 16 ≤ vec_capacity table.old }
    ensures read { Reads in_field (λ bytes. tags_at table.new) reader.old result reader.new reference_fields }
    ensures grows { Grows 16 table.old table.new }
    ensures inside { IfOk result (λ s. span_end s ≤ vec_len table.new) }
    ensures few { IfOk result (λ s. s.count ≤ 16) }
{
    let first = table.len();
    let count = usize::from(reader.code(1, 16)?);
    for _number in 0..count {
        let tag = reader.code(1, 255)?;
        table.push_reserved(tag);
    }
    Ok(Span { first, count })
}

pub(crate) fn read_references(
    reader: &mut Reader<'_>,
    list: &mut Vec<Span>,
    table: &mut Vec<u8>,
) -> Result<(), RequestFault>
    requires empty { (vec_len list.old ≡ 0) × (vec_len table.old ≡ 0) }
    requires room { (16 ≤ vec_capacity list.old) × (256 ≤ vec_capacity table.old) }
    ensures read { Reads in_request_fault (λ bytes done. references_in list.new table.new) reader.old result reader.new reference_list }
    ensures room { (vec_capacity list.new ≡ vec_capacity list.old) × (vec_capacity table.new ≡ vec_capacity table.old) }
    ensures few { longest list.new.items ≤ 16 }
{
    let count = usize::from(reader.code(1, 16)?);
    for number in 0..count {
        let read = read_reference(reader, table).map_err(ElementFault::Field);
        let span = read.map_err(|fault| ItemFault::new(Kind::Reference, number, fault))?;
        list.push_reserved(span);
    }
    Ok(())
}
