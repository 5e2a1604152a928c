use crate::table::cell::{Cell, Column};
use enquiry::row::Row;
use expansion::chosen::chosen;
use expansion::few::Few;
use expansion::list::list;
use request::request::Request;

// A row of a request over a tree, with its number among so many, and the elements that it is about.
#[derive(Clone, Copy)]
pub struct Shown<'s, 'a, T> {
    request: &'s Request<'a>,
    pub(crate) tree: &'s T,
    pub(crate) row: Row,
    pub(crate) number: u64,
    pub(crate) total: u64,
    elements: Few,
}

impl<'s, 'a, T> Shown<'s, 'a, T> {
    pub(crate) fn new(
        request: &'s Request<'a>,
        tree: &'s T,
        row: Row,
        number: u64,
        total: u64,
    ) -> Shown<'s, 'a, T> {
        let elements = elements_of(request, &row).unwrap_or(Few::new());
        Shown {
            request,
            tree,
            row,
            number,
            total,
            elements,
        }
    }

    // What it has in a column.
    pub(crate) fn cell<'c>(&'c self, column: Column) -> Cell<'c, 'a, T> {
        Cell {
            shown: self,
            column,
        }
    }

    // The value of the first attribute with an id, of the chosen element of a category.
    pub(crate) fn value(&self, category: u8, id: u8) -> Option<&'a [u8]> {
        let request = self.request;
        self.elements
            .as_slice()
            .iter()
            .map(|number| usize::from(*number))
            .filter(|number| is_of(request, *number, category))
            .flat_map(|number| request.attributes(number))
            .find(|attribute| attribute.id == id)
            .map(|attribute| request.text(attribute.value))
    }
}

fn is_of(request: &Request<'_>, number: usize, category: u8) -> bool {
    request
        .elements()
        .get(number)
        .is_some_and(|element| element.category == category)
}

// The elements of a row's choice; none where the reference is at fault.
fn elements_of(request: &Request<'_>, row: &Row) -> Option<Few> {
    let choice = row.choice?;
    let listed = list(request, row.reference)?.ok()?;
    Some(chosen(request, &listed, &choice))
}
