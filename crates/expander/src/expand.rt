use crate::choices::{all, first_unknown, groups, listed, product, taken};
use crate::content::{Asked, Element, Graph, Point};
use crate::decide::decide;
use crate::error::ExpandError;
use crate::read::points::read_point;
use crate::read::request::read_request;
use crate::read::trees::read_tree;
use crate::row::{Expanded, OracleRow};
use crate::scope::{nodes, scope_of};
use crate::single::{individual, written};
use model::decision::{Cause, Decision, Status};
use std::alloc::{AllocError, Global};
use std::convert::AsSlice;

// The bytes of a tree's file, lent or owned. The file is of one of two kinds.
#[derive(Clone, Copy, Debug, PartialEq, Drop)]
pub enum TreeFile<B> {
    Linked(B),
    Paths(B),
}

// The same of a decision point's.
#[derive(Clone, Copy, Debug, PartialEq, Drop)]
pub enum PointFile<B> {
    Rules(B),
    Grants(B),
}

// What was opened, and the heap that its rows are made in.
#[derive(Drop)]
struct World {
    heap: Global,
    asked: Asked,
    graph: Graph,
    point: Point,
}

// One choice of a reference: the number in each category, and the elements taken.
#[derive(Drop)]
struct Choice {
    reference: usize,
    numbers: Vec<usize>,
    taken: Vec<usize>,
}

// All rows of a request, in order.
pub fn expand<T: AsSlice<u8>, P: AsSlice<u8>>(
    heap: Global,
    request: &[u8],
    tree: &TreeFile<T>,
    point: &PointFile<P>,
) -> Result<Expanded, ExpandError> {
    let world = World {
        heap,
        asked: read_request(heap, request).map_err(|why| why.named(ExpandError::BadRequest))?,
        graph: read_tree(heap, tree).map_err(|why| why.named(ExpandError::BadTree))?,
        point: read_point(heap, point).map_err(|why| why.named(ExpandError::BadPoint))?,
    };
    let rows = world.rows()?;
    let verdict = world.asked.combined.then_some(combined(rows.as_slice()));
    Ok(Expanded { rows, verdict })
}

impl World {
    fn rows(&self) -> Result<Vec<OracleRow>, AllocError> {
        let mut rows = Vec::new(self.heap);
        let elements = self.asked.elements.as_slice();
        if self.asked.references.is_empty() {
            let list = all(self.heap, elements)?;
            self.put_listed(0, list.as_slice(), &mut rows)?;
        }
        for (reference, tags) in self.asked.references.iter().enumerate() {
            match first_unknown(elements, tags.as_slice()) {
                Some(position) => rows.push(fault(reference, None, Cause::UnknownTag, position))?,
                None => {
                    let list = listed(self.heap, elements, tags.as_slice())?;
                    self.put_listed(reference, list.as_slice(), &mut rows)?;
                }
            }
        }
        Ok(rows)
    }

    // The rows of a reference that lists these elements.
    fn put_listed(
        &self,
        reference: usize,
        list: &[usize],
        rows: &mut Vec<OracleRow>,
    ) -> Result<(), AllocError> {
        let groups = groups(self.heap, self.asked.elements.as_slice(), list)?;
        for numbers in product(self.heap, groups.as_slice())? {
            let taken = taken(self.heap, list, groups.as_slice(), numbers.as_slice())?;
            let choice = Choice {
                reference,
                numbers,
                taken,
            };
            self.put_choice(&choice, rows)?;
        }
        Ok(())
    }

    fn put_choice(&self, choice: &Choice, rows: &mut Vec<OracleRow>) -> Result<(), AllocError> {
        let Some((number, resource)) = self.resource(choice) else {
            rows.push(self.decided(choice, None)?)?;
            return Ok(());
        };
        match scope_of(resource, &self.graph) {
            Ok(None) => rows.push(self.decided(choice, None)?)?,
            Ok(Some((extent, asked))) => {
                for node in nodes(self.heap, &self.graph, extent, asked)? {
                    rows.push(self.decided(choice, Some(node))?)?;
                }
            }
            Err(cause) => {
                let numbers = choice.numbers.clone()?;
                rows.push(fault(choice.reference, Some(numbers), cause, number))?;
            }
        }
        Ok(())
    }

    // The resource element among those taken, and its number.
    fn resource(&self, choice: &Choice) -> Option<(usize, &Element)> {
        choice
            .taken
            .iter()
            .filter_map(|number| Some((*number, self.asked.elements.get(*number)?)))
            .find(|(_, element)| element.category == 1)
    }

    // The row of a choice, for a node or for none.
    fn decided(&self, choice: &Choice, node: Option<usize>) -> Result<OracleRow, AllocError> {
        let elements = self.asked.elements.as_slice();
        let name = node.and_then(|node| self.graph.names.get(node));
        let name = name.map(|name| name.as_slice());
        let single = individual(self.heap, elements, choice.taken.as_slice(), name)?;
        let bytes = written(self.heap, single.as_slice())?;
        let answer = decide(&self.point, single.as_slice());
        Ok(OracleRow {
            reference: choice.reference,
            choice: Some(choice.numbers.clone()?),
            node,
            decision: answer.decision,
            status: answer.status,
            cause: None,
            place: answer.place,
            single: Some(bytes),
        })
    }
}

fn fault(reference: usize, choice: Option<Vec<usize>>, cause: Cause, place: usize) -> OracleRow {
    let status = match cause {
        Cause::UnknownNode => Status::ProcessingError,
        _ => Status::SyntaxError,
    };
    OracleRow {
        reference,
        choice,
        node: None,
        decision: Decision::Indeterminate,
        status,
        cause: Some(cause),
        place,
        single: None,
    }
}

// Permit exactly when every row is.
fn combined(rows: &[OracleRow]) -> Decision {
    if rows.iter().all(|row| row.decision == Decision::Permit) {
        Decision::Permit
    } else {
        Decision::Deny
    }
}
