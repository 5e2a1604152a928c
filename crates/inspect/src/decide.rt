use crate::file::File;
use crate::opened::Opened;
use commandline::command::{PointKind, Source};
use decision::point::DecisionPoint;
use grants::grants::Grants;
use model::codes::{RESOURCE, SCOPE};
use report::console::Console;
use report::failed::Failed;
use request::content::Element;
use request::request::Request;
use rule_policy::policy::RulePolicy;
use single::single::SingleRequest;
use std::array::from_fn;
use std::fmt;

// What a decision point answers to a request that is a single one already.
pub fn decide<K: Copy + Into<PointKind>>(
    console: Console<'_>,
    request: &str,
    source: &Source<K>,
) -> Result<(), Failed> {
    let point = File::read(console.rt, source.file.as_str())?;
    let request = File::read(console.rt, request)?;
    match source.kind.into() {
        PointKind::Rules => ask::<RulePolicy<'_>>(console, &point, &request),
        PointKind::Grants => ask::<Grants<'_>>(console, &point, &request),
    }
}

fn ask<'a, P: Opened<'a> + DecisionPoint>(
    console: Console<'_>,
    point: &'a File<'_>,
    file: &File<'_>,
) -> Result<(), Failed> {
    let point: P = point.open(console)?;
    let request: Request<'_> = file.open(console)?;
    if let Some(why) = why_not_single(&request) {
        let name = file.name;
        eprintln!(console.rt; "vamluyak: {name} is not a single request: {why}")?;
        return Err(Failed);
    }
    let count = request.elements().len().min(16) as u8;
    let Some(single) = SingleRequest::new(&request, from_fn(|i| i as u8), count) else {
        return Err(Failed);
    };
    let (decision, status, place) = point.decide(&single);
    if console.tsv {
        println!(console.rt; "{decision}\t{status}\t{place}")?;
    } else {
        println!(console.rt; "{decision}, status {status}, place {place}")?;
    }
    Ok(())
}

// Why a request asks for more than one decision.
#[derive(Clone, Copy, Debug, PartialEq)]
enum NotSingle {
    References,
    Category,
    Scope,
}

impl fmt::Display for NotSingle {
    fn fmt<W: fmt::Write>(&self, f: &mut fmt::Formatter<W>) -> fmt::Result {
        f.write_str(match self {
            NotSingle::References => "it has references",
            NotSingle::Category => "a category is repeated",
            NotSingle::Scope => "its resource has a scope other than Immediate",
        })
    }
}

fn why_not_single(request: &Request) -> Option<NotSingle> {
    if request.references().is_some() {
        return Some(NotSingle::References);
    }
    request.elements().iter().enumerate().find_map(|(number, element)| why_not_by(
        request,
        number,
        element.category,
    ))
}

// The same, by the element of this number.
fn why_not_by(request: &Request, number: usize, category: u8) -> Option<NotSingle> {
    if is_repeated(request.elements(), category) {
        Some(NotSingle::Category)
    } else if category == RESOURCE && asks_for_more(request, number) {
        Some(NotSingle::Scope)
    } else {
        None
    }
}

fn is_repeated(elements: &[Element], category: u8) -> bool {
    elements.iter().filter(|e| e.category == category).count() > 1
}

fn asks_for_more(request: &Request, number: usize) -> bool {
    request.attributes(number).iter().any(|a| a.id == SCOPE
        && request.text(a.value) != b"Immediate".as_slice())
}
