ghost use Rattle.std.specs.Prelude.{◌≤◌, vec_capacity};

use crate::names::Names;

// What was read of a tree file, with room for what the longest one holds.
#[derive(Drop)]
pub struct Tables<'a> {
    pub names: Names<'a>,
    // The links, each a parent and a child; in ascending order once all are read.
    pub links: Vec<(usize, usize)>,
    ghost link_room: { 4096 ≤ vec_capacity links },
}
