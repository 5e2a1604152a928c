ghost use Rattle.std.specs.Prelude.{◌≡◌};
ghost use Rattle.model.specs.Points.{AnswerFits};
ghost use Rattle.decision.specs.Answered.{answered, asked};

use crate::point::DecisionPoint;
use model::decision::{Decision, Status};
use single::single::SingleRequest;

// Asks about the same elements for the node of that name, or about the request as it stands.
pub fn ask<P: DecisionPoint>(
    point: &P,
    request: &SingleRequest<'_, '_, '_>,
    node: Option<&[u8]>,
) -> (Decision, Status, u16)
    ensures answer { answered result ≡ P.answer point.now (asked request.now node.entry) }
    ensures fits { AnswerFits (answered result) }
{
    match node {
        Some(name) => point.decide(&request.at(name)),
        None => point.decide(request),
    }
}
