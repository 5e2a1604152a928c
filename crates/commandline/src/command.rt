ghost use Rattle.std.specs.Prelude.{◌≡◌};
ghost use Rattle.commandline.specs.ReadAs.{tree_kind_of, point_kind_of};

use std::fmt;
use std::str::FromStr;

// The kinds of file that a tree is read from.
#[derive(Clone, Copy, Debug, PartialEq)]
pub enum TreeKind {
    Linked,
    Paths,
}

// The kinds of file that a decision point is read from.
#[derive(Clone, Copy, Debug, PartialEq)]
pub enum PointKind {
    Rules,
    Grants,
}

// The kinds of file.
#[derive(Clone, Copy, Debug, PartialEq)]
pub enum Kind {
    Request,
    Tree(TreeKind),
    Point(PointKind),
}

// Where a tree is asked for. A file of another kind is read as a linked tree, and refused if its bytes are none.
impl From<Kind> for TreeKind {
    ghost from_gives = { λ k t. t ≡ tree_kind_of k };

    fn from(kind: Kind) -> TreeKind {
        match kind {
            Kind::Tree(kind) => kind,
            _ => TreeKind::Linked,
        }
    }
}

// Where a decision point is asked for. A file of another kind is read as grants, and refused if its bytes are none.
impl From<Kind> for PointKind {
    ghost from_gives = { λ k p. p ≡ point_kind_of k };

    fn from(kind: Kind) -> PointKind {
        match kind {
            Kind::Point(kind) => kind,
            _ => PointKind::Grants,
        }
    }
}

// A word that names no kind of file.
#[derive(Clone, Copy, Debug, PartialEq)]
pub struct UnknownKind;

impl FromStr for Kind {
    type Err = UnknownKind;

    fn from_str(word: &str) -> Result<Kind, UnknownKind> {
        match word {
            "request" => Ok(Kind::Request),
            "linked" => Ok(Kind::Tree(TreeKind::Linked)),
            "paths" => Ok(Kind::Tree(TreeKind::Paths)),
            "rules" => Ok(Kind::Point(PointKind::Rules)),
            "grants" => Ok(Kind::Point(PointKind::Grants)),
            _ => Err(UnknownKind),
        }
    }
}

// A file, and how it is to be read.
#[derive(Debug, PartialEq, Drop)]
pub struct Source<K> {
    pub kind: K,
    pub file: String,
}

// The files of an enquiry.
#[derive(Debug, PartialEq, Drop)]
pub struct Files {
    pub request: String,
    pub tree: Source<TreeKind>,
    pub point: Source<PointKind>,
}

// What an enquiry is opened for.
#[derive(Clone, Copy, Debug, PartialEq)]
pub enum Task {
    // Its rows.
    Rows,
    // The single request of each row.
    Singles,
    // The calls that standard input names.
    Work,
}

// What the words of the command line ask for. Flags: an extent belongs to `tree` and a form of output to `report`, and this crate depends on neither.
#[derive(Debug, PartialEq, Drop)]
pub enum Command {
    Help,
    Version,
    Check {
        source: Source<Kind>,
        tsv: bool,
    },
    Below {
        name: String,
        tree: Source<TreeKind>,
        children: bool,
        tsv: bool,
    },
    Decide {
        request: String,
        point: Source<PointKind>,
        tsv: bool,
    },
    Enquire {
        task: Task,
        files: Files,
        tsv: bool,
    },
}

// Why the words ask for nothing.
#[derive(Debug, PartialEq, Drop)]
pub enum Misuse {
    Missing(&'static str),
    Unknown(String),
    Twice(&'static str),
    Needless(&'static str),
}

impl fmt::Display for Misuse {
    fn fmt<W: fmt::Write>(&self, f: &mut fmt::Formatter<W>) -> fmt::Result {
        match self {
            Misuse::Missing(what) => write!(f, "{what} is missing"),
            Misuse::Unknown(word) => write!(f, "unknown word '{word}'"),
            Misuse::Twice(what) => write!(f, "{what} is named twice"),
            Misuse::Needless(what) => f.write_str(what),
        }
    }
}
