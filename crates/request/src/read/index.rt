ghost use Rattle.std.specs.Prelude.{◌≡◌, [], IfOk, vec_len};
ghost use Rattle.model.specs.Content.{read_request};
ghost use Rattle.request.specs.Answered.{Answers};
ghost use Rattle.request.specs.Held.{index_of, none_held};
ghost use Rattle.request.specs.Refused.{in_request_fault};

use crate::fault::RequestFault;
use crate::index::Index;
use crate::read::elements::read_elements;
use crate::read::references::read_references;
use std::alloc::{AllocError, Global};
use wire::reader::Reader;

impl Index {
    pub(crate) fn new(heap: Global) -> Result<Index, AllocError>
        ensures { IfOk result (λ i. index_of [] i ≡ none_held) }
    {
        let elements = Vec::with_capacity(heap, 16)?;
        let attributes = Vec::with_capacity(heap, 128)?;
        let references = Vec::with_capacity(heap, 16)?;
        let tags = Vec::with_capacity(heap, 256)?;
        Ok(Index {
            combined: false,
            referenced: true,
            elements,
            attributes,
            references,
            tags,
        })
    }

    fn clear(&mut self)
        ensures { (vec_len self.new.elements ≡ 0) × (vec_len self.new.attributes ≡ 0) × (vec_len self.new.references ≡ 0) × (vec_len self.new.tags ≡ 0) }
    {
        self.elements.clear();
        self.attributes.clear();
        self.references.clear();
        self.tags.clear();
    }

    // What is held after a refusal has no meaning.
    pub(crate) fn read(&mut self, bytes: &[u8]) -> Result<(), RequestFault>
        ensures { Answers in_request_fault (index_of bytes.now self.new) result (read_request bytes.now) }
    {
        self.clear();
        let mut reader = Reader::new(bytes);
        let map = reader.map(0b11)?;
        self.combined = map & 1 != 0;
        self.referenced = map & 2 != 0;
        if self.combined {
            reader.code(1, 1)?;
        }
        read_elements(&mut reader, &mut self.elements, &mut self.attributes)?;
        if self.referenced {
            read_references(&mut reader, &mut self.references, &mut self.tags)?;
        }
        reader.end()?;
        Ok(())
    }
}
