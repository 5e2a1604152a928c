use crate::case::Case;
use crate::collect::all_rows;
use decision::point::DecisionPoint;
use enquiry::enquiry::Enquiry;
use enquiry::row::Row;
use expander::error::ExpandError;
use expander::expand::{PointFile, TreeFile, expand};
use expander::row::{Expanded, OracleRow};
use expansion::few::Few;
use grants::grants::Grants;
use model::call::CallRefusal;
use request::request::Request;
use rule_policy::policy::RulePolicy;
use std::alloc::{AllocError, Global};
use tree::Tree;
use tree_files::linked::LinkedTree;
use tree_files::paths::PathTree;

// More than any single request takes: 2 bytes, and for each of 16 elements 3, and for each of 8 attributes 133.
const LONGEST: usize = 17_074;

fn same_choice(choice: &Option<Few>, other: &Option<Vec<usize>>) -> bool {
    match (choice, other) {
        (None, None) => true,
        (Some(few), Some(positions)) => same_positions(few.as_slice(), positions.as_slice()),
        _ => false,
    }
}

fn same_positions(few: &[u8], positions: &[usize]) -> bool {
    few.iter()
        .map(|position| usize::from(*position))
        .eq(positions.iter().copied())
}

fn same_row(row: &Row, other: &OracleRow) -> bool {
    row.reference == other.reference
        && row.node == other.node
        && row.decision == other.decision
        && row.status == other.status
        && row.cause == other.cause
        && usize::from(row.place) == other.place
        && same_choice(&row.choice, &other.choice)
}

fn same_rows(rows: &[Row], others: &[OracleRow]) -> bool {
    rows.len() == others.len()
        && rows
            .iter()
            .zip(others)
            .all(|(row, other)| same_row(row, other))
}

fn same_shown(shown: Result<usize, CallRefusal>, buffer: &[u8], single: &Option<Vec<u8>>) -> bool {
    match (shown, single) {
        (Ok(length), Some(bytes)) => buffer
            .get(0..length)
            .is_some_and(|written| written == bytes.as_slice()),
        (Err(refusal), None) => refusal == CallRefusal::FaultRow,
        _ => false,
    }
}

// Whether each row shows the single request that is expected, and the end comes after the last.
fn same_singles<T: Tree, P: DecisionPoint>(
    heap: Global,
    enquiry: &mut Enquiry<'_>,
    tree: &T,
    point: &P,
    others: &[OracleRow],
) -> Result<bool, AllocError> {
    let mut buffer = vec![in heap; 0; LONGEST]?;
    for other in others {
        let shown = enquiry.show(tree, buffer.as_mut_slice());
        if !same_shown(shown, buffer.as_slice(), &other.single) {
            return Ok(false);
        }
        if enquiry.step(tree, point).is_err() {
            return Ok(false);
        }
    }
    Ok(enquiry.step(tree, point).is_err())
}

// Whether the rows, the single requests, also after a rewind, and the verdict are those that are expected.
fn agrees<T: Tree, P: DecisionPoint>(
    heap: Global,
    request: &[u8],
    tree: &T,
    point: &P,
    expected: &Expanded,
) -> Result<bool, AllocError> {
    let Ok(rows) = all_rows(heap, request, tree, point) else {
        return Ok(false);
    };
    let others = expected.rows.as_slice();
    if !same_rows(rows.as_slice(), others) {
        return Ok(false);
    }
    let mut enquiry = Enquiry::new(heap)?;
    if enquiry.open(request, tree).is_err() {
        return Ok(false);
    }
    let shown = same_singles(heap, &mut enquiry, tree, point, others)?;
    enquiry.rewind(tree);
    let shown_again = same_singles(heap, &mut enquiry, tree, point, others)?;
    let verdict = expected.verdict.ok_or(CallRefusal::NoVerdict);
    Ok(shown && shown_again && enquiry.verdict() == verdict)
}

// The tree and the decision point, if the library accepts all three files; else what the first that it refuses is called.
fn opened<'o, T: Tree, P: DecisionPoint>(
    heap: Global,
    request: &[u8],
    tree: Option<&'o T>,
    point: Option<&'o P>,
) -> Result<Result<(&'o T, &'o P), ExpandError>, AllocError> {
    if Request::new(heap)?.open(request).is_err() {
        return Ok(Err(ExpandError::BadRequest));
    }
    let Some(tree) = tree else {
        return Ok(Err(ExpandError::BadTree));
    };
    Ok(
        point
            .map(|point| (tree, point))
            .ok_or(ExpandError::BadPoint),
    )
}

// Want of memory is no agreement.
fn same_outcome<T: Tree, P: DecisionPoint>(
    heap: Global,
    request: &[u8],
    tree: Option<&T>,
    point: Option<&P>,
    expected: &Result<Expanded, ExpandError>,
) -> Result<bool, AllocError> {
    match (opened(heap, request, tree, point)?, expected) {
        (Ok((tree, point)), Ok(expanded)) => agrees(heap, request, tree, point, expanded),
        (Err(refused), Err(other)) => Ok(refused == *other),
        _ => Ok(false),
    }
}

// The arms here and in `same` differ in a type alone; a trait for it would have an impl as long as each of them.
fn over_tree<T: Tree>(
    heap: Global,
    case: &Case,
    tree: Option<&T>,
    expected: &Result<Expanded, ExpandError>,
) -> Result<bool, AllocError> {
    let request = case.request.as_slice();
    match &case.point {
        PointFile::Rules(bytes) => {
            let mut point = RulePolicy::new(heap)?;
            let accepted = point.open(bytes.as_slice()).is_ok();
            same_outcome(heap, request, tree, accepted.then_some(&point), expected)
        }
        PointFile::Grants(bytes) => {
            let mut point = Grants::new(heap)?;
            let accepted = point.open(bytes.as_slice()).is_ok();
            same_outcome(heap, request, tree, accepted.then_some(&point), expected)
        }
    }
}

// Whether the library does with a case what is expected.
pub fn same(
    heap: Global,
    case: &Case,
    expected: &Result<Expanded, ExpandError>,
) -> Result<bool, AllocError> {
    match &case.tree {
        TreeFile::Linked(bytes) => {
            let mut tree = LinkedTree::new(heap)?;
            let accepted = tree.open(bytes.as_slice()).is_ok();
            over_tree(heap, case, accepted.then_some(&tree), expected)
        }
        TreeFile::Paths(bytes) => {
            let mut tree = PathTree::new(heap)?;
            let accepted = tree.open(bytes.as_slice()).is_ok();
            over_tree(heap, case, accepted.then_some(&tree), expected)
        }
    }
}

// What the second expander gives for a case.
pub fn expected(heap: Global, case: &Case) -> Result<Expanded, ExpandError> {
    expand(heap, case.request.as_slice(), &case.tree, &case.point)
}
