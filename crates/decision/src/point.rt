ghost use Rattle.std.specs.Prelude.{◌≡◌};
ghost use Rattle.model.specs.Points.{Point, PointFits};
ghost use Rattle.single.specs.Single.{content};
ghost use Rattle.decision.specs.Answered.{answered};

use model::decision::{Decision, Status};
use single::single::SingleRequest;

// Whatever gives one answer for each single request. It sees nothing but the request's content,
// so that requests with the same elements, attributes and values in the same order are one request to it.
pub trait DecisionPoint {
    // What it answers to each content.
    ghost answer: { Self → Point };

    // Its answers keep the status rule and the range of places.
    ghost fits: { (point : Self) → PointFits (answer point) };

    // Three plain values, which is the project's form for an answer: the decision, its status, and the place of what decided.
    fn decide(&self, request: &SingleRequest<'_, '_, '_>) -> (Decision, Status, u16)
        ensures { answered result ≡ answer self.now (content request.now) };
}
