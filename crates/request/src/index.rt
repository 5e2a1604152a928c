ghost use Rattle.std.specs.Prelude.{◌≤◌, vec_len, vec_capacity};
ghost use Rattle.request.specs.Tables.{longest};

use crate::content::{Attribute, Element};
use wire::span::Span;

// What was read of a request: the attributes of all elements in one table, and the tags of all references in one.
// There is room for what the longest request holds.
#[derive(Drop)]
pub struct Index {
    pub combined: bool,
    // Beside the references and not around them: their room stays reserved where a request has none.
    pub referenced: bool,
    pub elements: Vec<Element>,
    pub attributes: Vec<Attribute>,
    pub references: Vec<Span>,
    pub tags: Vec<u8>,
    ghost element_room: { 16 ≤ vec_capacity elements },
    ghost attribute_room: { 128 ≤ vec_capacity attributes },
    ghost reference_room: { 16 ≤ vec_capacity references },
    ghost tag_room: { 256 ≤ vec_capacity tags },
    // No request lists more than this many elements, and no reference more tags.
    ghost few_elements: { vec_len elements ≤ 16 },
    ghost few_tags: { longest references.items ≤ 16 },
}
