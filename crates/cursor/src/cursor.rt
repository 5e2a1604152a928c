use expansion::asked::Exploration;
use expansion::few::Few;
use model::decision::Cause;
use tree::reach::Reach;

// Before which row of a reference a cursor stands.
#[derive(Clone, Copy, Debug, PartialEq)]
pub enum Stand {
    // Past the last row.
    Ended,
    // The only row of a reference whose tag at this position names no element.
    UnknownTag(u8),
    // The only row of a choice whose resource, the element of this number, asks for what is not there.
    Fault(Cause, u8),
    // The only row of a choice that has no node.
    Itself,
    // The row of a choice for the node that stands at this place among those reached.
    Node(usize),
}

// Where the next row of a request stands. Of the reference it keeps what is listed and how many elements each category has,
// of the choice the positions taken and the elements chosen, and the nodes that are reached.
#[derive(Drop)]
pub struct Cursor {
    pub(crate) reference: usize,
    pub(crate) listed: Few,
    pub(crate) widths: Few,
    pub(crate) choice: Few,
    pub(crate) chosen: Few,
    pub(crate) stand: Stand,
    // The nodes reached, and what was explored for; one choice after another often asks for the same.
    pub(crate) reach: Reach,
    pub(crate) explored: Option<Exploration>,
}
