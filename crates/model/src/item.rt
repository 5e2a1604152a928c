ghost use Rattle.std.specs.Prelude.{Some};
ghost use Rattle.model.specs.Words.{kind_words};

use std::fmt;

// What stands around a field in a file.
#[derive(Clone, Copy, Debug, PartialEq)]
pub enum Kind {
    Element,
    Reference,
    Attribute,
    Rule,
    Condition,
    Name,
    Link,
    Line,
}

// An item of a file, by its kind and its number among its siblings, from 0.
#[derive(Clone, Copy, Debug, PartialEq)]
pub struct Item {
    pub kind: Kind,
    pub number: usize,
}

impl fmt::Display for Kind {
    ghost output = { λ k. Some (kind_words k) };

    fn fmt<W: fmt::Write>(&self, f: &mut fmt::Formatter<W>) -> fmt::Result {
        f.write_str(match self {
            Kind::Element => "element",
            Kind::Reference => "reference",
            Kind::Attribute => "attribute",
            Kind::Rule => "rule",
            Kind::Condition => "condition",
            Kind::Name => "name",
            Kind::Link => "link",
            Kind::Line => "line",
        })
    }
}
