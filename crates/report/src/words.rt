use model::codes::{ACTION, ACTION_ID, RESOURCE, RESOURCE_ID, SCOPE, STRING, SUBJECT, SUBJECT_ID};
use model::item::Item;
use std::fmt;

// A code as it stands in a file, and its name.
#[derive(Clone, Copy, Debug, PartialEq)]
pub struct Named {
    pub code: u8,
    pub name: &'static str,
}

impl fmt::Display for Named {
    fn fmt<W: fmt::Write>(&self, f: &mut fmt::Formatter<W>) -> fmt::Result {
        let Named { code, name } = self;
        write!(f, "{code} ({name})")
    }
}

pub fn category(code: u8) -> Named {
    let name = match code {
        RESOURCE => "resource",
        SUBJECT => "access-subject",
        ACTION => "action",
        _ => "other",
    };
    Named { code, name }
}

pub fn attribute_id(code: u8) -> Named {
    let name = match code {
        RESOURCE_ID => "resource-id",
        SCOPE => "scope",
        SUBJECT_ID => "subject-id",
        ACTION_ID => "action-id",
        _ => "other",
    };
    Named { code, name }
}

pub fn data_type(code: u8) -> Named {
    let name = match code {
        STRING => "string",
        _ => "other",
    };
    Named { code, name }
}

// The items around a field, the outermost first, or `-` for the file itself.
#[derive(Clone, Copy, Debug, PartialEq)]
pub struct Around {
    pub outer: Option<Item>,
    pub inner: Option<Item>,
}

impl fmt::Display for Around {
    fn fmt<W: fmt::Write>(&self, f: &mut fmt::Formatter<W>) -> fmt::Result {
        let Some(Item { kind, number }) = self.outer else {
            return f.write_char('-');
        };
        write!(f, "{kind} {number}")?;
        if let Some(Item { kind, number }) = self.inner {
            write!(f, " {kind} {number}")?;
        }
        Ok(())
    }
}
