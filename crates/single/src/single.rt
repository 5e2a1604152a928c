ghost use Rattle.std.specs.Prelude.{◌≤◌, length, take};
ghost use Rattle.request.specs.Place.{content_of};
ghost use Rattle.single.specs.Numbers.{past};

use request::request::Request;

// Some elements of a request, in order and by their numbers, and the name of the node that is asked about, if any.
// It copies nothing of the request, and may be kept while others read.
#[derive(Clone, Copy)]
pub struct SingleRequest<'r, 'a, 'n> {
    pub(crate) request: &'r Request<'a>,
    // An array with a count beside it: a view is made without a heap, and copied while an enquiry steps.
    pub(crate) chosen: [u8; 16],
    pub(crate) count: u8,
    pub(crate) name: Option<&'n [u8]>,
    ghost most: { count ≤ 16 },
    ghost few: { count ≤ length chosen },
    ghost numbers: { past (take count chosen) ≤ length (content_of request.now).elements },
}
