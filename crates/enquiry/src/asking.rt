ghost use Rattle.std.specs.Prelude.{◌≡◌, ◌≤◌, length, Some};
ghost use Rattle.std.specs.Option.{option_map};
ghost use Rattle.model.specs.Rows.{single_request, row_at_spot};
ghost use Rattle.decision.specs.Answered.{answered};
ghost use Rattle.request.specs.Place.{content_of};
ghost use Rattle.single.specs.Numbers.{past};
ghost use Rattle.single.specs.Single.{content};
ghost use Rattle.single.specs.Written.{bytes_for, Writes};
ghost use Rattle.expansion.specs.Few.{held};
ghost use Rattle.expansion.specs.Listed.{listed_of};
ghost use Rattle.cursor.specs.Spots.{spot_of, BasisNames};
ghost use Rattle.enquiry.specs.Calls.{Left};
ghost use Rattle.enquiry.specs.Rows.{row_of};

use crate::row::Row;
use cursor::spot::{Basis, Spot};
use decision::point::DecisionPoint;
use expansion::few::Few;
use expansion::put::{put, put_reached};
use model::decision::{Cause, Decision, Status};
use request::request::Request;
use single::short::TooShort;
use single::single::SingleRequest;
use tree::Tree;

// The single request of the chosen elements, for a node or for none. There is none where a number names no element,
// and no cursor over the request has such a number.
fn single_of<'s, T: Tree>(
    request: &'s Request<'s>,
    chosen: &Few,
    node: Option<usize>,
    tree: &'s T,
) -> Option<SingleRequest<'s, 's, 's>>
    ensures { past (held chosen.now) ≤ length (content_of request.now).elements → option_map content result ≡ Some (single_request (T.meaning tree.now) node (listed_of (content_of request.now).elements (held chosen.now))) }
{
    let single = put(request, chosen)?;
    match node {
        Some(node) => Some(put_reached(&single, tree, node)),
        None => Some(single),
    }
}

// The decision point's answer to the chosen elements, for a node or for none.
fn decide<T: Tree, P: DecisionPoint>(
    request: &Request<'_>,
    chosen: &Few,
    node: Option<usize>,
    tree: &T,
    point: &P,
) -> (Decision, Status, u16)
    ensures { past (held chosen.now) ≤ length (content_of request.now).elements → answered result ≡ P.answer point.now (single_request (T.meaning tree.now) node (listed_of (content_of request.now).elements (held chosen.now))) }
{
    match single_of(request, chosen, node, tree) {
        Some(single) => point.decide(&single),
        None => (Decision::Indeterminate, Status::ProcessingError, 0),
    }
}

// The row at a spot. The decision point is asked once, unless the spot is a fault.
pub(crate) fn row_at<T: Tree, P: DecisionPoint>(
    request: &Request<'_>,
    spot: Spot,
    tree: &T,
    point: &P,
) -> Row
    ensures { BasisNames (content_of request.now).elements spot.basis → row_of result ≡ row_at_spot (P.answer point.now) (spot_of (T.meaning tree.now) (content_of request.now).elements spot) }
{
    let Spot {
        reference,
        choice,
        node,
        basis,
    } = spot;
    match basis {
        Basis::Fault(cause, place) => Row {
            reference,
            choice,
            node,
            decision: Decision::Indeterminate,
            status: Status::from(cause),
            cause: Some(cause),
            place: u16::from(place),
        },
        Basis::Single(chosen) => {
            let (decision, status, place) = decide(request, &chosen, node, tree, point);
            Row {
                reference,
                choice,
                node,
                decision,
                status,
                cause: None,
                place,
            }
        }
    }
}

// Writes the single request of the chosen elements, for a node or for none.
pub(crate) fn write<T: Tree>(
    request: &Request<'_>,
    chosen: &Few,
    node: Option<usize>,
    tree: &T,
    buffer: &mut [u8],
) -> Result<usize, TooShort>
    ensures writes { past (held chosen.now) ≤ length (content_of request.now).elements → Writes (bytes_for (single_request (T.meaning tree.now) node (listed_of (content_of request.now).elements (held chosen.now)))) buffer.old result buffer.new }
    ensures left { Left result buffer.old buffer.new }
{
    match single_of(request, chosen, node, tree) {
        Some(single) => single.write(buffer),
        None => Err(TooShort { needed: 0 }),
    }
}
