ghost use Rattle.std.specs.Prelude.{◌≡◌, MatchResult};
ghost use Rattle.model.specs.Content.{read_request};
ghost use Rattle.conformance.specs.declared.collect.Stop.TheVariants.{Refused, NoMemory};
ghost use Rattle.conformance.specs.Collected.{rows_of, Complete, Stopped};

use decision::point::DecisionPoint;
use enquiry::enquiry::Enquiry;
use enquiry::row::Row;
use request::fault::RequestFault;
use std::alloc::{AllocError, AllocFailed, Global};
use tree::Tree;

// Why there are no rows.
#[derive(Drop)]
pub enum Stop {
    Refused(RequestFault),
    NoMemory,
}

impl From<RequestFault> for Stop {
    ghost from_gives = { λ fault stop. stop ≡ Refused fault };

    fn from(fault: RequestFault) -> Stop {
        Stop::Refused(fault)
    }
}

impl From<AllocError> for Stop {
    ghost from_gives = { λ _ stop. stop ≡ NoMemory };

    fn from(_error: AllocError) -> Stop {
        Stop::NoMemory
    }
}

impl<T: Drop> From<AllocFailed<T>> for Stop {
    ghost from_gives = { λ _ stop. stop ≡ NoMemory };

    fn from(_error: AllocFailed<T>) -> Stop {
        Stop::NoMemory
    }
}

// All rows of a request, one step after another. That they are all of them, in order, none missing and none twice,
// is what opening promises of every run of calls, at the run that is made here.
pub fn all_rows<T: Tree, P: DecisionPoint>(
    heap: Global,
    bytes: &[u8],
    tree: &T,
    point: &P,
) -> Result<Vec<Row>, Stop>
    ensures { MatchResult result (λ v. Complete (T.meaning tree.now) (P.answer point.now) (read_request bytes.now) (rows_of v.items)) (λ stop. Stopped (read_request bytes.now) stop) }
{
    let mut enquiry = Enquiry::new(heap)?;
    enquiry.open(bytes, tree)?;
    let mut rows = Vec::new(heap);
    while let Ok(row) = enquiry.step(tree, point) {
        rows.push(row)?;
    }
    Ok(rows)
}
