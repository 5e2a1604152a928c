ghost use Rattle.std.specs.Prelude.{◌≡◌, ◌<◌, ◌≤◌, IfOk, vec_len, vec_capacity};
ghost use Rattle.model.specs.TreeFiles.{node_number, link_fields, link_list};
ghost use Rattle.wire.specs.Told.{Reads, in_field, itself};
ghost use Rattle.tree_files.specs.Links.{Ends};
ghost use Rattle.tree_files.specs.Refused.{in_tree_fault};

use crate::fault::TreeFault;
use model::item::Kind;
use model::refusal::Defect;
use wire::fault::{Fault, ItemFault};
use wire::reader::Reader;

fn read_node(reader: &mut Reader<'_>, nodes: usize) -> Result<usize, Fault>
    ensures read { Reads in_field itself reader.old result reader.new (node_number nodes) }
    ensures inside { IfOk result (λ n. n < nodes) }
{
    let past = reader.fault(Defect::NoSuchNode);
    let node = usize::from(reader.wide(0, 65535)?);
    if nodes <= node {
        return Err(past);
    }
    Ok(node)
}

fn read_link(reader: &mut Reader<'_>, nodes: usize) -> Result<(usize, usize), Fault>
    ensures read { Reads in_field itself reader.old result reader.new (link_fields nodes) }
    ensures inside { IfOk result (λ l. (l.0 < nodes) × (l.1 < nodes)) }
{
    let parent = read_node(reader, nodes)?;
    let child = read_node(reader, nodes)?;
    Ok((parent, child))
}

pub(crate) fn read_links(
    reader: &mut Reader<'_>,
    nodes: usize,
    links: &mut Vec<(usize, usize)>,
) -> Result<(), TreeFault>
    requires empty { vec_len links.old ≡ 0 }
    requires room { 4096 ≤ vec_capacity links.old }
    ensures read { Reads in_tree_fault (λ bytes done. links.new.items) reader.old result reader.new (link_list nodes) }
    ensures inside { Ends nodes links.new.items }
    ensures room { vec_capacity links.new ≡ vec_capacity links.old }
{
    let count = usize::from(reader.wide(0, 4096)?);
    for number in 0..count {
        let read = read_link(reader, nodes);
        let link = read.map_err(|fault| ItemFault::new(Kind::Link, number, fault))?;
        links.push_reserved(link);
    }
    Ok(())
}
