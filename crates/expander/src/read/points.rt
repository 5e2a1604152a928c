use crate::content::{Condition, Line, Point, Rule};
use crate::error::Unread;
use crate::expand::PointFile;
use crate::input::Input;
use crate::read::request::read_attribute;
use model::decision::Decision;
use std::alloc::Global;
use std::convert::AsSlice;

pub(crate) fn read_point<B: AsSlice<u8>>(
    heap: Global,
    file: &PointFile<B>,
) -> Result<Point, Unread> {
    match file {
        PointFile::Rules(bytes) => Ok(Point::Rules(read_rules(heap, bytes.as_slice())?)),
        PointFile::Grants(bytes) => Ok(Point::Grants(read_grants(heap, bytes.as_slice())?)),
    }
}

fn read_rules(heap: Global, bytes: &[u8]) -> Result<Vec<Rule>, Unread> {
    let mut input = Input::new(bytes);
    let count = input.number(1, 64)?;
    let rules = (0..count)
        .map(|_| -> Result<Rule, Unread> { read_rule(heap, &mut input) })
        .try_collect(heap)?;
    input.end()?;
    Ok(rules)
}

fn read_rule(heap: Global, input: &mut Input) -> Result<Rule, Unread> {
    let map = input.number(0, 1)?;
    let effect = if input.number(1, 2)? == 1 {
        Decision::Permit
    } else {
        Decision::Deny
    };
    let count = if map == 1 { input.number(1, 4)? } else { 0 };
    let conditions = (0..count)
        .map(|_| -> Result<Condition, Unread> { read_condition(heap, input) })
        .try_collect(heap)?;
    Ok(Rule { effect, conditions })
}

fn read_condition(heap: Global, input: &mut Input) -> Result<Condition, Unread> {
    let map = input.number(0, 7)?;
    Ok(Condition {
        category: input.number(1, 255)?,
        attribute: read_attribute(heap, input, map)?,
    })
}

fn read_grants(heap: Global, bytes: &[u8]) -> Result<Vec<Line>, Unread> {
    let mut input = Input::new(bytes);
    let count = input.wide(1024)?;
    let lines = (0..count)
        .map(|_| -> Result<Line, Unread> { read_line(heap, &mut input) })
        .try_collect(heap)?;
    input.end()?;
    Ok(lines)
}

fn read_line(heap: Global, input: &mut Input) -> Result<Line, Unread> {
    Ok(Line {
        subject: input.text(heap, 1, 64)?,
        action: input.text(heap, 1, 64)?,
        resource: input.text(heap, 1, 64)?,
    })
}
