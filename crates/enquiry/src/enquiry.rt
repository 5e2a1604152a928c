use cursor::cursor::Cursor;
use request::request::Request;

// A place for an enquiry: a request, where the next of its rows stands, and what is to be known of the rows before it.
#[derive(Drop)]
pub struct Enquiry<'a> {
    pub(crate) request: Request<'a>,
    pub(crate) cursor: Cursor,
    // How many rows have been handed out, and whether each of them is a Permit.
    pub(crate) handed: usize,
    pub(crate) permitted: bool,
}
