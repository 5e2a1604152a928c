ghost use Rattle.std.specs.Prelude.{◌≡◌, ◌≤◌, [], length, IfOk, OnErr};
ghost use Rattle.model.specs.PointFiles.{read_grants};
ghost use Rattle.model.specs.PointSpelling.{GrantsSpelling};
ghost use Rattle.wire.specs.Span.{part as part_of};
ghost use Rattle.request.specs.Answered.{answered, OpenedAs};
ghost use Rattle.grants.specs.Place.{grant_lines, lines_shown};
ghost use Rattle.grants.specs.Refused.{in_grants_fault};

use crate::fault::GrantsFault;
use crate::grants::Grants;
use crate::line::Line;
use crate::lines::Lines;
use std::alloc::{AllocError, Global};
use std::mem::swap;
use wire::span::{Span, part};

impl<'a> Grants<'a> {
    // Reserves what any file can need; only this call can want memory. New grants have no lines.
    pub fn new(heap: Global) -> Result<Grants<'a>, AllocError>
        ensures { IfOk result (λ g. grant_lines g ≡ []) }
    {
        let index = Lines::new(heap)?;
        let spare = Lines::new(heap)?;
        Ok(Grants {
            bytes: &[],
            index,
            spare,
        })
    }

    // Reads the grants that the bytes spell; a refusal leaves those before.
    pub fn open(&mut self, bytes: &'a [u8]) -> Result<(), GrantsFault>
        ensures answer { answered in_grants_fault (grant_lines self.new) result ≡ read_grants bytes.now }
        ensures spelled { OpenedAs GrantsSpelling bytes.now (grant_lines self.new) result }
        ensures kept { OnErr result (grant_lines self.new ≡ grant_lines self.old) }
    {
        self.spare.read(bytes)?;
        swap(&mut self.index, &mut self.spare);
        self.bytes = bytes;
        Ok(())
    }

    pub fn lines(&self) -> &[Line]
        ensures few { length result.now ≤ 1024 }
        ensures shown { lines_shown self.now result.now ≡ grant_lines self.now }
    {
        self.index.lines.as_slice()
    }

    // A text of a line: the part of the file's bytes that it is.
    pub fn text(&self, text: Span) -> &'a [u8]
        ensures { result.now ≡ part_of self.now.bytes.now text }
    {
        part(self.bytes, text)
    }
}
