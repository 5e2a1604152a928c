ghost use Rattle.std.specs.Prelude.{◌≡◌, []};
ghost use Rattle.std.specs.Option.{option_map};
ghost use Rattle.model.specs.PointFiles.{issued_by, comparable, truth as truth_in};
ghost use Rattle.wire.specs.Told.{spanned};
ghost use Rattle.single.specs.Shown.{attribute_seen};
ghost use Rattle.single.specs.Single.{content};
ghost use Rattle.rule_policy.specs.Fits.{policy_fits};
ghost use Rattle.rule_policy.specs.Held.{decides, condition_of};
ghost use Rattle.rule_policy.specs.Judged.{judged};
ghost use Rattle.rule_policy.specs.Place.{answer_of};

use crate::policy::RulePolicy;
use crate::rule::{Condition, Effect};
use crate::truth::Truth;
use decision::point::DecisionPoint;
use model::decision::{Decision, Status};
use single::seen::Seen;
use single::single::SingleRequest;
use single::value::same_bytes;
use wire::span::{Span, part};

// Whether an issuer is the named one, if one is named.
fn is_issued_by(named: Option<Span>, texts: &[u8], issuer: Option<Span>, bytes: &[u8]) -> bool
    ensures { result ≡ issued_by (option_map (spanned texts.now) named) (option_map (spanned bytes.now) issuer) }
{
    named.is_none_or(|named| {
        issuer.is_some_and(|issuer| same_bytes(part(texts, named), part(bytes, issuer)))
    })
}

// Whether a condition compares the value of an attribute of its category.
fn compares(condition: Condition, texts: &[u8], attribute: Seen, bytes: &[u8]) -> bool
    ensures { result ≡ comparable (condition_of texts.now condition) (attribute_seen bytes.now [] attribute) }
{
    attribute.id == condition.id
        && attribute.data_type == condition.data_type
        && is_issued_by(condition.issuer, texts, attribute.issuer, bytes)
}

fn truth(condition: Condition, texts: &[u8], request: &SingleRequest<'_, '_, '_>) -> Truth
    ensures { judged result ≡ truth_in (content request.now) (condition_of texts.now condition) }
{
    let bytes = request.bytes();
    let name = request.name();
    let wanted = part(texts, condition.value);
    let mut compared = false;
    let mut i = 0;
    // By index: a single request is a view, with no slice of its elements or their attributes.
    'elements: loop {
        if i >= request.elements() {
            break 'elements if condition.required && !compared {
                Truth::Indeterminate
            } else {
                Truth::False
            };
        }
        if request.has_category(i, condition.category) {
            for j in 0..request.attributes(i) {
                let Some(attribute) = request.attribute(i, j) else {
                    continue;
                };
                if compares(condition, texts, attribute, bytes) {
                    if same_bytes(attribute.value(bytes, name), wanted) {
                        break 'elements Truth::Met;
                    }
                    compared = true;
                }
            }
        }
        i += 1;
    }
}

impl From<Effect> for Decision {
    ghost from_gives = { λ e d. d ≡ decides e };

    fn from(effect: Effect) -> Decision {
        match effect {
            Effect::Permit => Decision::Permit,
            Effect::Deny => Decision::Deny,
        }
    }
}

impl Effect {
    pub fn decision(self) -> Decision
        ensures { result ≡ decides self }
    {
        self.into()
    }
}

// An answer looks at each condition of the rules up to the deciding one, and for each at the attributes
// of its category.
impl<'a> DecisionPoint for RulePolicy<'a> {
    ghost answer = { answer_of };

    ghost fits = { policy_fits };

    fn decide(&self, request: &SingleRequest<'_, '_, '_>) -> (Decision, Status, u16) {
        let rules = self.rules();
        let texts = self.bytes;
        let mut next = 0;
        // A `loop` and not a `for`: it yields the answer.
        'rules: loop {
            let number = next;
            let Some(rule) = rules.get(number) else {
                break 'rules (Decision::NotApplicable, Status::Ok, 0);
            };
            next += 1;
            let conditions = self.conditions(rule);
            let mut known = true;
            for condition in conditions {
                match truth(*condition, texts, request) {
                    Truth::Met => {}
                    // A false condition rules the rule out, whatever came before it.
                    Truth::False => continue 'rules,
                    Truth::Indeterminate => known = false,
                }
            }
            break 'rules if known {
                (rule.effect.decision(), Status::Ok, number as u16)
            } else {
                (
                    Decision::Indeterminate,
                    Status::MissingAttribute,
                    number as u16,
                )
            };
        }
    }
}
