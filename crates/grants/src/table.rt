ghost use Rattle.grants.specs.Held.{lines_at};
ghost use Rattle.grants.specs.Order.{Indexed};

use crate::line::Line;

// The lines of a file, and the first of each kind in the order of their texts.
#[derive(Clone, Copy)]
pub(crate) struct Table<'t> {
    pub bytes: &'t [u8],
    pub lines: &'t [Line],
    pub order: &'t [usize],
    ghost indexed: { Indexed (lines_at bytes.now lines.now) order.now },
}
