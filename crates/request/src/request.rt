ghost use Rattle.std.specs.Prelude.{◌≡◌, IfOk, OnErr};
ghost use Rattle.std.specs.Option.{option_map};
ghost use Rattle.model.specs.Content.{read_request};
ghost use Rattle.wire.specs.Span.{part as part_of};
ghost use Rattle.request.specs.Answered.{answered, Opened};
ghost use Rattle.request.specs.Held.{attributes_of_held, none_held};
ghost use Rattle.request.specs.Place.{bytes_of, bytes_held, content_of, elements_shown, attributes_of, references_shown, tags_shown};
ghost use Rattle.request.specs.Refused.{in_request_fault};

use crate::content::{Attribute, Element};
use crate::fault::RequestFault;
use crate::index::Index;
use std::alloc::{AllocError, Global};
use std::mem::swap;
use wire::span::{Span, part};

// A place for a request: what was read last, and room to read the next.
#[derive(Drop)]
pub struct Request<'a> {
    bytes: &'a [u8],
    index: Index,
    spare: Index,
}

impl<'a> Request<'a> {
    // Reserves what any request can need; only this call can want memory.
    pub fn new(heap: Global) -> Result<Request<'a>, AllocError>
        ensures { IfOk result (λ q. content_of q ≡ none_held) }
    {
        let index = Index::new(heap)?;
        let spare = Index::new(heap)?;
        Ok(Request {
            bytes: &[],
            index,
            spare,
        })
    }

    // Reads the request that the bytes spell; a refusal leaves the one before.
    pub fn open(&mut self, bytes: &'a [u8]) -> Result<(), RequestFault>
        ensures answer { answered in_request_fault (content_of self.new) result ≡ read_request bytes.now }
        ensures spelled { Opened bytes.now (content_of self.new) result }
        ensures held { bytes_of self.new ≡ bytes_held result bytes.now self.old }
        ensures kept { OnErr result (content_of self.new ≡ content_of self.old) }
    {
        self.spare.read(bytes)?;
        swap(&mut self.index, &mut self.spare);
        self.bytes = bytes;
        Ok(())
    }

    // The bytes that were opened last; none before.
    pub fn bytes(&self) -> &'a [u8]
        ensures { result.now ≡ bytes_of self.now }
    {
        self.bytes
    }

    // Whether a verdict is asked for.
    pub fn combined(&self) -> bool
        ensures { result ≡ (content_of self.now).combined }
    {
        self.index.combined
    }

    pub fn elements(&self) -> &[Element]
        ensures { elements_shown self.now result.now ≡ (content_of self.now).elements }
    {
        self.index.elements.as_slice()
    }

    // The attributes of the element of this number; none past the last element.
    pub fn attributes(&self, number: usize) -> &[Attribute]
        ensures { attributes_of_held (bytes_of self.now) result.now ≡ attributes_of number (content_of self.now).elements }
    {
        match self.index.elements.get(number) {
            Some(element) => part(self.index.attributes.as_slice(), element.attributes),
            None => &[],
        }
    }

    // The references, each by its tags' span.
    pub fn references(&self) -> Option<&[Span]>
        ensures { option_map (references_shown self.now) result ≡ (content_of self.now).references }
    {
        if self.index.referenced {
            Some(self.index.references.as_slice())
        } else {
            None
        }
    }

    // The tags of a reference.
    pub fn tags(&self, reference: Span) -> &[u8]
        ensures { result.now ≡ tags_shown self.now reference }
    {
        part(self.index.tags.as_slice(), reference)
    }

    // A value or an issuer: the part of the request's bytes that it is.
    pub fn text(&self, text: Span) -> &'a [u8]
        ensures { result.now ≡ part_of (bytes_of self.now) text }
    {
        part(self.bytes, text)
    }
}
