ghost use Rattle.std.specs.Prelude.{◌≡◌};
ghost use Rattle.model.specs.PointFiles.{values, first_line};
ghost use Rattle.decision.specs.Answered.{answered};
ghost use Rattle.single.specs.Single.{content};
ghost use Rattle.grants.specs.Fits.{grants_fit};
ghost use Rattle.grants.specs.Found.{given, found_in};
ghost use Rattle.grants.specs.Place.{grant_lines, answer_of};
ghost use Rattle.grants.specs.Texts.{texts_line};

use crate::grants::Grants;
use crate::table::Table;
use crate::texts::Texts;
use decision::point::DecisionPoint;
use model::codes::{ACTION, ACTION_ID, RESOURCE, RESOURCE_ID, SUBJECT, SUBJECT_ID};
use model::decision::{Decision, Status};
use single::only::Only;
use single::seen::Seen;
use single::single::SingleRequest;

// What a request has under an id of a category.
fn find(request: &SingleRequest<'_, '_, '_>, category: u8, id: u8) -> Only<Seen>
    ensures { found_in request.now result ≡ given (values category id (content request.now)) }
{
    let mut found = Only::Missing;
    // By index: a single request is a view, with no slice of its elements or their attributes.
    for i in 0..request.elements() {
        if request.has_category(i, category) {
            for j in 0..request.attributes(i) {
                let Some(attribute) = request.attribute(i, j) else {
                    continue;
                };
                if attribute.id == id {
                    found = found.and(attribute);
                    if let Only::Several = found {
                        return found;
                    }
                }
            }
        }
    }
    found
}

impl<'a> Grants<'a> {
    // The first line with the same bytes, or a denial.
    fn grant(&self, asked: &Texts<'_>) -> (Decision, Status, u16)
        ensures { answered result ≡ first_line (texts_line asked.now) 0 (grant_lines self.now) }
    {
        let order = self.index.order.as_slice();
        let table = Table {
            bytes: self.bytes,
            lines: self.index.lines.as_slice(),
            order,
        };
        match table.place_of(asked) {
            Ok(place) => (Decision::Permit, Status::Ok, order[place] as u16),
            Err(_) => (Decision::Deny, Status::Ok, 0),
        }
    }
}

impl<'a> DecisionPoint for Grants<'a> {
    ghost answer = { answer_of };

    ghost fits = { grants_fit };

    fn decide(&self, request: &SingleRequest<'_, '_, '_>) -> (Decision, Status, u16) {
        let bytes = request.bytes();
        let name = request.name();
        let subject = find(request, SUBJECT, SUBJECT_ID);
        let action = find(request, ACTION, ACTION_ID);
        let resource = find(request, RESOURCE, RESOURCE_ID);
        match (subject, action, resource) {
            (Only::Missing, _, _) | (_, Only::Missing, _) | (_, _, Only::Missing) => {
                (Decision::NotApplicable, Status::Ok, 0)
            }
            (Only::One(s), Only::One(a), Only::One(r)) => self.grant(&Texts {
                subject: s.value(bytes, name),
                action: a.value(bytes, name),
                resource: r.value(bytes, name),
            }),
            _ => (Decision::Indeterminate, Status::ProcessingError, 0),
        }
    }
}
