ghost use Rattle.std.specs.Prelude.{◌≡◌, true, false, length, set as with_mark, replicate, slice_index_or};

// A mark for each node that a tree can have: a plain table, with calls of its own, since a search allocates nothing.
#[derive(Drop)]
pub struct Marks {
    on: [bool; 1024],
    ghost full: { length on ≡ 1024 },
}

impl Marks {
    pub fn new() -> Marks
        ensures { result.on ≡ replicate 1024 false }
    {
        Marks { on: [false; 1024] }
    }

    pub fn clear(&mut self)
        ensures { self.new.on ≡ replicate 1024 false }
    {
        self.on = [false; 1024];
    }

    // A number that no tree's node has is not marked.
    pub fn set(&mut self, node: usize)
        ensures { self.new.on ≡ with_mark self.old.on node true }
    {
        // By index: `get_mut` of the array was tried, and the proof didn't close.
        if node < 1024 {
            self.on[node] = true;
        }
    }

    pub fn is_set(&self, node: usize) -> bool
        ensures { result ≡ slice_index_or self.now.on node false }
    {
        self.on.get(node).copied().unwrap_or(false)
    }
}
