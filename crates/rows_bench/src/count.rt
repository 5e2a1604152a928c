use decision::point::DecisionPoint;
use enquiry::enquiry::Enquiry;
use enquiry::row::Row;
use grants::grants::Grants;
use model::decision::Decision;
use std::alloc::{AllocError, Global};
use tree::Tree;
use tree_files::linked::LinkedTree;

#[derive(Clone, Copy, Debug, PartialEq)]
pub struct Counted {
    pub rows: u64,
    pub permits: u64,
    // Over what every row carries, in order.
    pub checksum: u64,
}

fn mixed(sum: u64, field: u64) -> u64 {
    sum.wrapping_mul(31).wrapping_add(field)
}

fn with_row(checksum: u64, row: &Row) -> u64 {
    let mut sum = mixed(checksum, row.reference as u64);
    if let Some(choice) = &row.choice {
        for position in choice.as_slice() {
            sum = mixed(sum, u64::from(*position));
        }
    }
    let node = row.node.map_or(0, |node| (node as u64).wrapping_add(1));
    sum = mixed(sum, node);
    sum = mixed(sum, u64::from(row.decision.number()));
    sum = mixed(sum, u64::from(row.status.number()));
    mixed(sum, u64::from(row.place))
}

fn count_rows<T: Tree, P: DecisionPoint>(
    enquiry: &mut Enquiry<'_>,
    tree: &T,
    point: &P,
) -> Counted {
    let mut rows = 0u64;
    let mut permits = 0u64;
    let mut checksum = 0;
    for row in enquiry.rows(tree, point) {
        rows = rows.saturating_add(1);
        permits = permits.saturating_add(u64::from(row.decision == Decision::Permit));
        checksum = with_row(checksum, &row);
    }
    Counted {
        rows,
        permits,
        checksum,
    }
}

// None where a file is refused.
pub fn count(
    heap: Global,
    request: &[u8],
    tree_file: &[u8],
    grants_file: &[u8],
) -> Result<Option<Counted>, AllocError> {
    let mut tree = LinkedTree::new(heap)?;
    let mut point = Grants::new(heap)?;
    let mut enquiry = Enquiry::new(heap)?;
    if tree.open(tree_file).is_err() || point.open(grants_file).is_err() {
        return Ok(None);
    }
    if enquiry.open(request, &tree).is_err() {
        return Ok(None);
    }
    Ok(Some(count_rows(&mut enquiry, &tree, &point)))
}
