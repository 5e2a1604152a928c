use std::error::Error;

// The program ends with status 1; what there is to say has been printed.
#[derive(Clone, Copy, Debug, PartialEq)]
pub struct Failed;

impl<E: Error + Drop> From<E> for Failed {
    fn from(_error: E) -> Failed {
        Failed
    }
}
