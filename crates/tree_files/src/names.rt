ghost use Rattle.std.specs.Prelude.{◌≡◌, ◌≤◌, vec_len, vec_capacity};
ghost use Rattle.tree_files.specs.Names.{texts_of, Named, InsideOf, Ascending, Complete};

use std::alloc::{AllocError, Global};
use wire::search::search_by;
use wire::span::{Span, part};

// The names of a tree, with room for what the longest file holds.
#[derive(Drop)]
pub struct Names<'a> {
    pub bytes: &'a [u8],
    // The nodes' names, as parts of the bytes.
    pub spans: Vec<Span>,
    // The nodes by ascending names. A list and no map: reading a tree allocates nothing.
    pub order: Vec<usize>,
    ghost span_room: { 1024 ≤ vec_capacity spans },
    ghost order_room: { 1024 ≤ vec_capacity order },
    ghost few: { vec_len spans ≤ 1024 },
    ghost as_many: { vec_len order ≡ vec_len spans },
    ghost named: { Named (texts_of bytes.now spans.items) },
    ghost inside: { InsideOf (texts_of bytes.now spans.items) order.items },
    ghost ascending: { Ascending (texts_of bytes.now spans.items) order.items },
    ghost complete: { Complete (texts_of bytes.now spans.items) order.items },
}

// A name, and its place in the order of the names before it.
#[derive(Clone, Copy)]
pub struct NewName {
    pub name: Span,
    pub at: usize,
}

impl<'a> Names<'a> {
    ghost use Rattle.std.specs.Prelude.{◌<◌, [], ◌∷◌, ◌++◌, length, IfOk, slice_index_or};
    ghost use Rattle.std.specs.Option.{option_map};
    ghost use Rattle.model.specs.Lists.{nth};
    ghost use Rattle.model.specs.Tree.{numbered};
    ghost use Rattle.tree_files.specs.Names.{Placed, Fresh, name_in};
    ghost use Rattle.tree_files.specs.Texts.{texts_in};

    pub(crate) fn new(heap: Global) -> Result<Names<'a>, AllocError>
        ensures { IfOk result (λ n. texts_in n ≡ []) }
    {
        let spans = Vec::with_capacity(heap, 1024)?;
        let order = Vec::with_capacity(heap, 1024)?;
        Ok(Names {
            bytes: &[],
            spans,
            order,
        })
    }

    // No names, over other bytes.
    pub(crate) fn restart(&mut self, bytes: &'a [u8])
        ensures bytes { self.new.bytes.now ≡ bytes.now }
        ensures empty { texts_in self.new ≡ [] }
    {
        self.bytes = bytes;
        self.spans.clear();
        self.order.clear();
    }

    pub(crate) fn len(&self) -> usize
        ensures { result ≡ length (texts_in self.now) }
    {
        self.spans.len()
    }

    // None past the last node.
    pub(crate) fn get(&self, node: usize) -> Option<&[u8]>
        ensures { option_map (λ x. x.now) result ≡ nth (texts_in self.now) node }
    {
        self.spans.get(node).map(|span| part(self.bytes, *span))
    }

    // The name of a node, and none of its bytes past the last node.
    fn text(&self, node: usize) -> &[u8]
        ensures { result.now ≡ slice_index_or (texts_in self.now) node [] }
    {
        self.get(node).unwrap_or(&[])
    }

    // Where a name stands in the order of the names, or else where it would: about log n comparisons.
    pub(crate) fn place_of(&self, name: &[u8]) -> Result<usize, usize>
        ensures { Placed (texts_in self.now) self.now.order.items name.now result }
    {
        search_by(&self.order, |node| self.text(*node).cmp(&name))
    }

    // The node with this name.
    pub(crate) fn find(&self, name: &[u8]) -> Option<usize>
        ensures { result ≡ numbered 0 (texts_in self.now) name.now }
    {
        let place = self.place_of(name).ok()?;
        Some(self.order[place])
    }

    pub(crate) fn add(&mut self, new: NewName)
        requires few { length (texts_in self.old) < 1024 }
        requires fresh { Fresh (texts_in self.old) self.old.order.items (name_in self.old.bytes.now new) new.at }
        ensures bytes { self.new.bytes.now ≡ self.old.bytes.now }
        ensures added { texts_in self.new ≡ texts_in self.old ++ name_in self.old.bytes.now new ∷ [] }
    {
        let node = self.spans.len();
        self.spans.push_reserved(new.name);
        // There is room, so this does not fail.
        let _ = self.order.insert(new.at, node);
    }
}
