use crate::line::{OrDash, Positions};
use crate::table::shown::Shown;
use model::codes::{ACTION, ACTION_ID, RESOURCE, RESOURCE_ID, SUBJECT, SUBJECT_ID};
use report::text::Text;
use std::fmt;
use tree::Tree;

#[derive(Clone, Copy, Debug, PartialEq)]
pub enum Column {
    Number,
    Reference,
    Choice,
    Subject,
    Action,
    Resource,
    Node,
    Decision,
    Status,
    Cause,
    Place,
}

pub(crate) const COLUMNS: [Column; 11] = [
    Column::Number,
    Column::Reference,
    Column::Choice,
    Column::Subject,
    Column::Action,
    Column::Resource,
    Column::Node,
    Column::Decision,
    Column::Status,
    Column::Cause,
    Column::Place,
];

// The heading.
impl fmt::Display for Column {
    fn fmt<W: fmt::Write>(&self, f: &mut fmt::Formatter<W>) -> fmt::Result {
        f.write_str(match self {
            Column::Number => "row",
            Column::Reference => "reference",
            Column::Choice => "choice",
            Column::Subject => "subject",
            Column::Action => "action",
            Column::Resource => "resource",
            Column::Node => "node",
            Column::Decision => "decision",
            Column::Status => "status",
            Column::Cause => "cause",
            Column::Place => "place",
        })
    }
}

// What a row has in a column.
#[derive(Clone, Copy)]
pub struct Cell<'s, 'a, T> {
    pub(crate) shown: &'s Shown<'s, 'a, T>,
    pub(crate) column: Column,
}

impl<T: Tree> fmt::Display for Cell<'_, '_, T> {
    fn fmt<W: fmt::Write>(&self, f: &mut fmt::Formatter<W>) -> fmt::Result {
        let shown = self.shown;
        let row = shown.row;
        match self.column {
            Column::Number => write!(f, "{} of {}", shown.number, shown.total),
            Column::Reference => write!(f, "{}", row.reference),
            Column::Choice => write!(f, "{}", OrDash(row.choice.map(|few| Positions(few)))),
            Column::Subject => write_text(f, shown.value(SUBJECT, SUBJECT_ID)),
            Column::Action => write_text(f, shown.value(ACTION, ACTION_ID)),
            Column::Resource => write_text(f, shown.value(RESOURCE, RESOURCE_ID)),
            Column::Node => write_text(f, row.node.and_then(|node| shown.tree.name(node))),
            Column::Decision => write!(f, "{}", row.decision),
            Column::Status => write!(f, "{}", row.status),
            Column::Cause => match row.cause {
                Some(cause) => write!(f, "{} {cause}", cause.number()),
                None => f.write_char('-'),
            },
            Column::Place => write!(f, "{}", row.place),
        }
    }
}

fn write_text<W: fmt::Write>(f: &mut fmt::Formatter<W>, text: Option<&[u8]>) -> fmt::Result {
    write!(f, "{}", OrDash(text.map(|text| Text(text))))
}
