use crate::text::Text;
use crate::words::{attribute_id, data_type};
use std::fmt;

// What attributes and conditions both have.
#[derive(Clone, Copy, Debug, PartialEq)]
pub struct Described<'a> {
    pub id: u8,
    pub data_type: u8,
    pub value: &'a [u8],
    pub issuer: Option<&'a [u8]>,
}

impl fmt::Display for Described<'_> {
    fn fmt<W: fmt::Write>(&self, f: &mut fmt::Formatter<W>) -> fmt::Result {
        let id = attribute_id(self.id);
        let data_type = data_type(self.data_type);
        let value = Text(self.value);
        write!(f, "id {id}, type {data_type}, value {value}")?;
        match self.issuer {
            Some(issuer) => write!(f, ", issuer {}", Text(issuer)),
            None => Ok(()),
        }
    }
}
