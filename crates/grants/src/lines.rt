ghost use Rattle.std.specs.Prelude.{◌≤◌, vec_len, vec_capacity};

use crate::line::Line;

// What was read of grants, with room for what the longest file holds.
#[derive(Drop)]
pub struct Lines {
    pub lines: Vec<Line>,
    // The first line of each kind, by number, in the order of their texts. A list and no map: reading grants allocates nothing.
    pub order: Vec<usize>,
    ghost few: { vec_len lines ≤ 1024 },
    ghost room: { 1024 ≤ vec_capacity lines },
    ghost order_room: { 1024 ≤ vec_capacity order },
}
