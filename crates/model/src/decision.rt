ghost use Rattle.std.specs.Prelude.{◌≡◌, Some};
ghost use Rattle.model.specs.Numbers.{decision_number, status_number, cause_number};
ghost use Rattle.model.specs.Rows.{status_of_fault};
ghost use Rattle.model.specs.Words.{decision_words, status_words, cause_words};

use std::fmt;

// What a decision point decides about a single request.
#[derive(Clone, Copy, Debug, PartialEq)]
pub enum Decision {
    Permit = 0,
    Deny = 1,
    Indeterminate = 2,
    NotApplicable = 3,
}

// How a decision came about; `Ok` exactly where it is not `Indeterminate`.
#[derive(Clone, Copy, Debug, PartialEq)]
pub enum Status {
    Ok = 0,
    SyntaxError = 1,
    MissingAttribute = 2,
    ProcessingError = 3,
}

// Why a row is a fault row, so that no decision point was asked.
#[derive(Clone, Copy, Debug, PartialEq)]
pub enum Cause {
    UnknownTag = 41,
    SeveralScopes = 42,
    BadScope = 43,
    NoSingleResourceId = 44,
    UnknownNode = 45,
}

impl From<Cause> for Status {
    ghost from_gives = { λ c s. s ≡ status_of_fault c };

    fn from(cause: Cause) -> Status {
        match cause {
            Cause::UnknownNode => Status::ProcessingError,
            _ => Status::SyntaxError,
        }
    }
}

// `number` is a method and no From: it is what the documents speak of.
impl Decision {
    pub fn number(self) -> u8
        ensures { result ≡ decision_number self }
    {
        self as u8
    }
}

impl Status {
    pub fn number(self) -> u8
        ensures { result ≡ status_number self }
    {
        self as u8
    }
}

impl Cause {
    pub fn number(self) -> u8
        ensures { result ≡ cause_number self }
    {
        self as u8
    }
}

impl fmt::Display for Decision {
    ghost output = { λ d. Some (decision_words d) };

    fn fmt<W: fmt::Write>(&self, f: &mut fmt::Formatter<W>) -> fmt::Result {
        f.write_str(match self {
            Decision::Permit => "Permit",
            Decision::Deny => "Deny",
            Decision::Indeterminate => "Indeterminate",
            Decision::NotApplicable => "NotApplicable",
        })
    }
}

impl fmt::Display for Status {
    ghost output = { λ s. Some (status_words s) };

    fn fmt<W: fmt::Write>(&self, f: &mut fmt::Formatter<W>) -> fmt::Result {
        f.write_str(match self {
            Status::Ok => "ok",
            Status::SyntaxError => "syntax-error",
            Status::MissingAttribute => "missing-attribute",
            Status::ProcessingError => "processing-error",
        })
    }
}

impl fmt::Display for Cause {
    ghost output = { λ c. Some (cause_words c) };

    fn fmt<W: fmt::Write>(&self, f: &mut fmt::Formatter<W>) -> fmt::Result {
        f.write_str(match self {
            Cause::UnknownTag => "no element carries the tag",
            Cause::SeveralScopes => "the resource has more than one scope",
            Cause::BadScope => "the scope is not Immediate, Children or Descendants",
            Cause::NoSingleResourceId => "the resource has not exactly one resource-id",
            Cause::UnknownNode => "no node has the name",
        })
    }
}
