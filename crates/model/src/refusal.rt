ghost use Rattle.std.specs.Prelude.{◌≡◌, Some};
ghost use Rattle.model.specs.Layout.{layer};
ghost use Rattle.model.specs.Numbers.{defect_number};
ghost use Rattle.model.specs.Refused.{meant};
ghost use Rattle.model.specs.Words.{defect_words};

use crate::item::Item;
use std::fmt;

// What is wrong with the first field that fails.
#[derive(Clone, Copy, Debug, PartialEq)]
pub enum Defect {
    EndsEarly = 11,
    UnnamedBit = 12,
    OutOfRange = 13,
    BytesLeft = 14,
    TagRepeated = 15,
    NameRepeated = 16,
    NoSuchNode = 17,
    EmptySegment = 18,
}

// `number` is a method and no From: it is what the documents speak of.
impl Defect {
    pub fn number(self) -> u8
        ensures { result ≡ defect_number self }
    {
        self as u8
    }
}

impl fmt::Display for Defect {
    ghost output = { λ d. Some (defect_words d) };

    fn fmt<W: fmt::Write>(&self, f: &mut fmt::Formatter<W>) -> fmt::Result {
        f.write_str(match self {
            Defect::EndsEarly => "the bytes end inside or before a field",
            Defect::UnnamedBit => "a bit of a map stands that has no name",
            Defect::OutOfRange => "a count, a length or a code is out of its range",
            Defect::BytesLeft => "bytes are left over",
            Defect::TagRepeated => "a tag repeats that of an earlier element",
            Defect::NameRepeated => "a name repeats an earlier one",
            Defect::NoSuchNode => "a link names no node",
            Defect::EmptySegment => "a path has an empty segment",
        })
    }
}

// Why a file was refused: the defect, the items around the field, and the place of the byte.
// There is an inner item only inside an outer one.
#[derive(Clone, Copy, Debug, PartialEq)]
pub struct Refusal {
    pub defect: Defect,
    pub outer: Option<Item>,
    pub inner: Option<Item>,
    pub place: usize,
}

impl Refusal {
    // 1 for a field of the file itself, 2 for one of an item, 3 for one of an item in an item.
    pub fn layer(&self) -> u8
        ensures { result ≡ layer (meant self.now) }
    {
        1 + self.outer.is_some() as u8 + self.inner.is_some() as u8
    }
}
