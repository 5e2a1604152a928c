ghost use Rattle.std.specs.Prelude.{◌≡◌, [], IfOk};
ghost use Rattle.model.specs.TreeFiles.{new_name, name_list};
ghost use Rattle.wire.specs.Told.{Reads, in_field};
ghost use Rattle.tree_files.specs.Names.{name_in, Fresh};
ghost use Rattle.tree_files.specs.Refused.{in_tree_fault};
ghost use Rattle.tree_files.specs.Texts.{texts_in};

use crate::fault::TreeFault;
use crate::format::Format;
use crate::names::{Names, NewName};
use model::item::Kind;
use model::refusal::Defect;
use wire::fault::{Fault, ItemFault};
use wire::reader::Reader;
use wire::span::part;

fn read_name<F: Format>(reader: &mut Reader<'_>, names: &Names<'_>) -> Result<NewName, Fault>
    ensures read { Reads in_field name_in reader.old result reader.new (new_name F.wrong (texts_in names.now)) }
    ensures fresh { IfOk result (λ x. Fresh (texts_in names.now) names.now.order.items (name_in reader.old.bytes.now x) x.at) }
{
    let bytes = reader.bytes();
    let empty_segment = reader.fault(Defect::EmptySegment);
    let repeated = reader.fault(Defect::NameRepeated);
    let name = reader.text(1, 64)?;
    let text = part(bytes, name);
    if F::is_wrong(text) {
        return Err(empty_segment);
    }
    match names.place_of(text) {
        Ok(_) => Err(repeated),
        Err(at) => Ok(NewName { name, at }),
    }
}

// The names, each put into the order as it is read: about n log n comparisons.
pub(crate) fn read_names<F: Format>(
    reader: &mut Reader<'_>,
    names: &mut Names<'_>,
) -> Result<(), TreeFault>
    requires same { names.old.bytes.now ≡ reader.old.bytes.now }
    requires empty { texts_in names.old ≡ [] }
    ensures read { Reads in_tree_fault (λ bytes done. texts_in names.new) reader.old result reader.new (name_list F.wrong) }
    ensures bytes { names.new.bytes.now ≡ names.old.bytes.now }
{
    let count = usize::from(reader.wide(0, 1024)?);
    for number in 0..count {
        let read = read_name::<F>(reader, names);
        let new = read.map_err(|fault| ItemFault::new(Kind::Name, number, fault))?;
        names.add(new);
    }
    Ok(())
}
