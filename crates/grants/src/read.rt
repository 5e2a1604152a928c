ghost use Rattle.std.specs.Prelude.{◌≡◌, ◌+◌, ◌<◌, ◌≤◌, [], ◌∷◌, ◌++◌, IfOk, vec_len, vec_capacity, OnOk};
ghost use Rattle.model.specs.PointFiles.{line_fields, grants_fields, read_grants};
ghost use Rattle.wire.specs.Told.{Reads, in_field};
ghost use Rattle.request.specs.Answered.{Answers};
ghost use Rattle.grants.specs.Held.{line_of, lines_at, lines_of};
ghost use Rattle.grants.specs.Order.{Indexed};
ghost use Rattle.grants.specs.Ordered.{Empty, Good};
ghost use Rattle.grants.specs.Refused.{in_grants_fault};

use crate::fault::GrantsFault;
use crate::line::Line;
use crate::lines::Lines;
use crate::table::Table;
use model::item::Kind;
use std::alloc::{AllocError, Global};
use wire::fault::{Fault, ItemFault};
use wire::reader::Reader;

fn read_line(reader: &mut Reader<'_>) -> Result<Line, Fault>
    ensures { Reads in_field line_of reader.old result reader.new line_fields }
{
    let subject = reader.text(1, 64)?;
    let action = reader.text(1, 64)?;
    let resource = reader.text(1, 64)?;
    Ok(Line {
        subject,
        action,
        resource,
    })
}

// Puts the next line into the order, if no earlier one has its texts.
fn put_in_order(bytes: &[u8], lines: &[Line], order: &mut Vec<usize>, line: Line)
    requires indexed { Indexed (lines_at bytes.now lines.now) order.old.items }
    requires room { vec_len order.old < vec_capacity order.old }
    ensures indexed { Indexed (lines_at bytes.now lines.now ++ line_of bytes.now line ∷ []) order.new.items }
    ensures longer { vec_len order.new ≤ vec_len order.old + 1 }
    ensures room { vec_capacity order.new ≡ vec_capacity order.old }
{
    let table = Table {
        bytes,
        lines,
        order: order.as_slice(),
    };
    let Err(at) = table.place_of(&line.texts(bytes)) else {
        return;
    };
    let _ = order.insert(at, lines.len());
}

impl Lines {
    pub(crate) fn new(heap: Global) -> Result<Lines, AllocError>
        ensures { IfOk result (λ i. Empty i) }
    {
        let lines = Vec::with_capacity(heap, 1024)?;
        let order = Vec::with_capacity(heap, 1024)?;
        Ok(Lines { lines, order })
    }

    // The lines, and their order: about n log n comparisons.
    fn read_lines(&mut self, reader: &mut Reader<'_>) -> Result<(), GrantsFault>
        requires { Empty self.old }
        ensures read { Reads in_grants_fault (λ bytes done. lines_of bytes self.new) reader.old result reader.new grants_fields }
        ensures indexed { Good reader.old.bytes.now self.new }
    {
        let count = usize::from(reader.wide(0, 1024)?);
        let bytes = reader.bytes();
        for number in 0..count {
            let read = read_line(reader);
            let line = read.map_err(|fault| ItemFault::new(Kind::Line, number, fault))?;
            put_in_order(bytes, self.lines.as_slice(), &mut self.order, line);
            self.lines.push_reserved(line);
        }
        Ok(())
    }

    // What is held after a refusal has no meaning.
    pub(crate) fn read(&mut self, bytes: &[u8]) -> Result<(), GrantsFault>
        ensures answer { Answers in_grants_fault (lines_of bytes.now self.new) result (read_grants bytes.now) }
        ensures indexed { OnOk result (Good bytes.now self.new) }
    {
        self.lines.clear();
        self.order.clear();
        let mut reader = Reader::new(bytes);
        self.read_lines(&mut reader)?;
        reader.end()?;
        Ok(())
    }
}
