use crate::case::Case;
use crate::compare::{expected, same};
use expander::expand::{PointFile, TreeFile};
use expander::row::Expanded;
use model::decision::{Cause, Decision};
use std::alloc::{AllocError, Global};

// Nodes n, n/p, n/p/m, np, n/q/m.
const PATHS: [u8; 23] = *b"\x00\x05\x01n\x03n/p\x05n/p/m\x02np\x05n/q/m";

// The same names, with a link from each to every longer name that begins with it.
const BEGINNINGS: [u8; 45] =
    *b"\x00\x05\x01n\x03n/p\x05n/p/m\x02np\x05n/q/m\x00\x05\x00\x00\x00\x01\x00\x00\x00\x02\x00\x00\x00\x03\x00\x00\x00\x04\x00\x01\x00\x02";

// A resource n with scope Descendants.
const BELOW_N: [u8; 23] = *b"\x00\x01\x02\x01\x02\x00\x01\x01n\x00\x02\x0bDescendants";

// The same with a scope in small letters.
const SMALL_LETTERS: [u8; 23] = *b"\x00\x01\x02\x01\x02\x00\x01\x01n\x00\x02\x0bdescendants";

// An element with tag 7; references to 7 twice, and to 8.
const BAD_REFERENCE: [u8; 11] = [2, 1, 1, 2, 7, 2, 2, 7, 7, 1, 8];

// The bad reference alone.
const BAD_ALONE: [u8; 8] = [2, 1, 1, 2, 7, 1, 1, 8];

const NO_NODES: [u8; 2] = [0, 0];

const NO_LINES: [u8; 2] = [0, 0];

// A subject with subject-id s, and one with t.
const TWO_SUBJECTS: [u8; 17] = *b"\x01\x01\x02\x02\x02\x01\x00\x03\x01s\x02\x02\x01\x00\x03\x01t";

// Permit where the subject-id is s.
const PERMIT_S: [u8; 9] = *b"\x01\x01\x01\x01\x00\x02\x03\x01s";

// Permit where the subject has an attribute of id 9, which must be present, and where the subject-id is u.
const UNKNOWN_THEN_FALSE: [u8; 14] = *b"\x01\x01\x01\x02\x04\x02\x09\x01x\x00\x02\x03\x01u";

// The first of the two conditions alone.
const UNKNOWN_ALONE: [u8; 9] = *b"\x01\x01\x01\x01\x04\x02\x09\x01x";

fn linked(heap: Global, bytes: &[u8]) -> Result<TreeFile<Vec<u8>>, AllocError> {
    Ok(TreeFile::Linked(Vec::from_slice(heap, bytes)?))
}

fn paths(heap: Global, bytes: &[u8]) -> Result<TreeFile<Vec<u8>>, AllocError> {
    Ok(TreeFile::Paths(Vec::from_slice(heap, bytes)?))
}

fn rules(heap: Global, bytes: &[u8]) -> Result<PointFile<Vec<u8>>, AllocError> {
    Ok(PointFile::Rules(Vec::from_slice(heap, bytes)?))
}

fn grants(heap: Global, bytes: &[u8]) -> Result<PointFile<Vec<u8>>, AllocError> {
    Ok(PointFile::Grants(Vec::from_slice(heap, bytes)?))
}

fn case(
    heap: Global,
    request: &[u8],
    tree: TreeFile<Vec<u8>>,
    point: PointFile<Vec<u8>>,
) -> Result<Case, AllocError> {
    Ok(Case {
        request: Vec::from_slice(heap, request)?,
        tree,
        point,
    })
}

// A request of one element with one attribute, whose value has this length.
fn with_value(heap: Global, length: u8) -> Result<Case, AllocError> {
    let mut request = Vec::from_slice(heap, &[0, 1, 2, 9, 1, 0, 9, length])?;
    request.resize(8 + usize::from(length), b'v')?;
    Ok(Case {
        request,
        tree: paths(heap, &NO_NODES)?,
        point: grants(heap, &NO_LINES)?,
    })
}

// Whether both accept a value of this length, or both refuse it; none where they differ.
fn is_value_read(heap: Global, length: u8) -> Result<Option<bool>, AllocError> {
    let case = with_value(heap, length)?;
    let expanded = expected(heap, &case);
    Ok(same(heap, &case, &expanded)?.then_some(expanded.is_ok()))
}

pub fn value_is_read(heap: Global, length: u8) -> Result<bool, AllocError> {
    Ok(is_value_read(heap, length)? == Some(true))
}

pub fn value_is_refused(heap: Global, length: u8) -> Result<bool, AllocError> {
    Ok(is_value_read(heap, length)? == Some(false))
}

// What the second expander gives for a case, where the library does the same.
fn agreed(heap: Global, case: &Case) -> Result<Option<Expanded>, AllocError> {
    let expanded = expected(heap, case);
    let agreed = same(heap, case, &expanded)?;
    Ok(expanded.ok().filter(|_| agreed))
}

// Whether a scope in small letters is cause 43 to both.
pub fn small_letters_are_no_scope(heap: Global) -> Result<bool, AllocError> {
    let tree = paths(heap, &PATHS)?;
    let case = case(heap, &SMALL_LETTERS, tree, grants(heap, &NO_LINES)?)?;
    Ok(agreed(heap, &case)?.is_some_and(|expanded| match expanded.rows.as_slice() {
        [row] => row.cause == Some(Cause::BadScope),
        _ => false,
    }))
}

// Whether rows Permit and NotApplicable have the verdict Deny to both.
pub fn mixed_rows_are_denied(heap: Global) -> Result<bool, AllocError> {
    let tree = paths(heap, &NO_NODES)?;
    let case = case(heap, &TWO_SUBJECTS, tree, rules(heap, &PERMIT_S)?)?;
    Ok(agreed(heap, &case)?.is_some_and(|expanded| match expanded.rows.as_slice() {
        [first, second] => {
            first.decision == Decision::Permit
                && second.decision == Decision::NotApplicable
                && expanded.verdict == Some(Decision::Deny)
        }
        _ => false,
    }))
}

// Whether the library does with the case what the second expander does, and not what that one gives for the shortcut.
fn catches(heap: Global, case: &Case, shortcut: &Case) -> Result<bool, AllocError> {
    let right = expected(heap, case);
    let wrong = expected(heap, shortcut);
    Ok(same(heap, case, &right)? && wrong.is_ok() && !same(heap, case, &wrong)?)
}

// One bad reference would silence the good ones.
pub fn catches_silence(heap: Global) -> Result<bool, AllocError> {
    let tree = paths(heap, &NO_NODES)?;
    let right = case(heap, &BAD_REFERENCE, tree, grants(heap, &NO_LINES)?)?;
    let tree = paths(heap, &NO_NODES)?;
    let wrong = case(heap, &BAD_ALONE, tree, grants(heap, &NO_LINES)?)?;
    catches(heap, &right, &wrong)
}

// Descent would be read off a common beginning of paths.
pub fn catches_beginnings(heap: Global) -> Result<bool, AllocError> {
    let tree = paths(heap, &PATHS)?;
    let right = case(heap, &BELOW_N, tree, grants(heap, &NO_LINES)?)?;
    let tree = linked(heap, &BEGINNINGS)?;
    let wrong = case(heap, &BELOW_N, tree, grants(heap, &NO_LINES)?)?;
    catches(heap, &right, &wrong)
}

// A rule would stop at its first Indeterminate condition though a later one is false.
pub fn catches_stopping(heap: Global) -> Result<bool, AllocError> {
    let tree = paths(heap, &NO_NODES)?;
    let right = case(heap, &TWO_SUBJECTS, tree, rules(heap, &UNKNOWN_THEN_FALSE)?)?;
    let tree = paths(heap, &NO_NODES)?;
    let wrong = case(heap, &TWO_SUBJECTS, tree, rules(heap, &UNKNOWN_ALONE)?)?;
    catches(heap, &right, &wrong)
}
