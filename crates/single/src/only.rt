ghost use Rattle.std.specs.Prelude.{◌≡◌};
ghost use Rattle.single.specs.Only.{one_more};

// What was found where one is wanted.
#[derive(Clone, Copy, Debug, PartialEq)]
pub enum Only<T> {
    Missing,
    One(T),
    Several,
}

impl<T: Copy> Only<T> {
    // With one more.
    pub fn and(self, found: T) -> Only<T>
        ensures { result ≡ one_more self found }
    {
        match self {
            Only::Missing => Only::One(found),
            _ => Only::Several,
        }
    }
}
