use crate::content::{Attribute, Condition, Element, Line, Point, Rule};
use model::decision::{Decision, Status};

#[derive(Clone, Copy, Debug, PartialEq)]
pub struct Answer {
    pub decision: Decision,
    pub status: Status,
    pub place: usize,
}

// What a condition, or a rule, comes to.
#[derive(Clone, Copy, Debug, PartialEq)]
enum Truth {
    Met,
    Unmet,
    Unknown,
}

// The category of an element and the id of an attribute that grants compare.
type Name = (u8, u8);

const SUBJECT: Name = (2, 3);

const ACTION: Name = (3, 4);

const RESOURCE: Name = (1, 1);

pub(crate) fn decide(point: &Point, single: &[Element]) -> Answer {
    match point {
        Point::Rules(rules) => by_rules(rules.as_slice(), single),
        Point::Grants(lines) => by_grants(lines.as_slice(), single),
    }
}

impl Answer {
    fn new(decision: Decision, status: Status, place: usize) -> Answer {
        Answer {
            decision,
            status,
            place,
        }
    }
}

// The first rule that is not unmet decides.
fn by_rules(rules: &[Rule], single: &[Element]) -> Answer {
    for (place, rule) in rules.iter().enumerate() {
        match all_met(rule.conditions.as_slice(), single) {
            Truth::Met => return Answer::new(rule.effect, Status::Ok, place),
            Truth::Unknown => {
                return Answer::new(Decision::Indeterminate, Status::MissingAttribute, place);
            }
            Truth::Unmet => {}
        }
    }
    Answer::new(Decision::NotApplicable, Status::Ok, 0)
}

// One that is unmet settles it, wherever it stands.
fn all_met(conditions: &[Condition], single: &[Element]) -> Truth {
    let mut all = Truth::Met;
    for condition in conditions {
        match met(condition, single) {
            Truth::Met => {}
            Truth::Unmet => return Truth::Unmet,
            Truth::Unknown => all = Truth::Unknown,
        }
    }
    all
}

fn met(condition: &Condition, single: &[Element]) -> Truth {
    let wanted = &condition.attribute;
    let mut present = false;
    for element in single.iter().filter(|e| e.category == condition.category) {
        for attribute in element.attributes.iter().filter(|a| compares(wanted, *a)) {
            present = true;
            if attribute.value == wanted.value {
                return Truth::Met;
            }
        }
    }
    if wanted.marked && !present {
        Truth::Unknown
    } else {
        Truth::Unmet
    }
}

// Whether a condition's attribute is one to compare with.
fn compares(wanted: &Attribute, attribute: &Attribute) -> bool {
    attribute.id == wanted.id
        && attribute.kind == wanted.kind
        && (wanted.issuer.is_none() || attribute.issuer == wanted.issuer)
}

fn by_grants(lines: &[Line], single: &[Element]) -> Answer {
    let numbers = [SUBJECT, ACTION, RESOURCE].map(|name| number_of(single, name));
    if numbers.contains(&0) {
        return Answer::new(Decision::NotApplicable, Status::Ok, 0);
    }
    if numbers.iter().any(|number| *number > 1) {
        return Answer::new(Decision::Indeterminate, Status::ProcessingError, 0);
    }
    match lines.iter().position(|line| granted(line, single)) {
        Some(place) => Answer::new(Decision::Permit, Status::Ok, place),
        None => Answer::new(Decision::Deny, Status::Ok, 0),
    }
}

fn granted(line: &Line, single: &[Element]) -> bool {
    has(single, SUBJECT, &line.subject)
        && has(single, ACTION, &line.action)
        && has(single, RESOURCE, &line.resource)
}

// How many attributes of an id the elements of a category have.
fn number_of(single: &[Element], (category, id): Name) -> usize {
    single
        .iter()
        .filter(|element| element.category == category)
        .fold(0usize, |number, element| {
            number.saturating_add(count(element.attributes.as_slice(), id))
        })
}

pub(crate) fn count(attributes: &[Attribute], id: u8) -> usize {
    attributes
        .iter()
        .filter(|attribute| attribute.id == id)
        .count()
}

// Whether one of them has a value.
fn has(single: &[Element], (category, id): Name, value: &Vec<u8>) -> bool {
    single
        .iter()
        .filter(|element| element.category == category)
        .flat_map(|element| element.attributes.iter())
        .any(|attribute| attribute.id == id && attribute.value == *value)
}
