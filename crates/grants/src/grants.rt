ghost use Rattle.grants.specs.Order.{Indexed, lines_behind};

use crate::lines::Lines;

// A place for grants: what was read last, and room to read the next.
#[derive(Drop)]
pub struct Grants<'a> {
    pub(crate) bytes: &'a [u8],
    pub(crate) index: Lines,
    pub(crate) spare: Lines,
    ghost indexed: { Indexed (lines_behind bytes index.lines.items) index.order.items },
}
