ghost use Rattle.std.specs.Prelude.{◌≡◌};
ghost use Rattle.std.specs.Iterator.{at_most};
ghost use Rattle.enquiry.specs.Calls.{Standing};
ghost use Rattle.enquiry.specs.Stepping.{AtMost, Steps};

use crate::enquiry::Enquiry;
use crate::row::Row;
use decision::point::DecisionPoint;
use tree::Tree;

// No enquiry has more rows.
const MOST_ROWS: usize = 16 * 324 * 1024;

// The rows that are left of an enquiry, each handed out by a step.
#[derive(Drop)]
pub struct Rows<'e, 'a, T, P> {
    enquiry: &'e mut Enquiry<'a>,
    tree: &'e T,
    point: &'e P,
    most: usize,
}

impl<'a> Enquiry<'a> {
    // The rows that are left, over the tree that the request was opened over.
    pub fn rows<'e, T: Tree, P: DecisionPoint>(
        &'e mut self,
        tree: &'e T,
        point: &'e P,
    ) -> Rows<'e, 'a, T, P>
        ensures same_reference { result.enquiry.ghost_name ≡ self.entry.ghost_name }
        ensures enquiry { result.enquiry.now ≡ self.entry.now }
        ensures tree { result.tree.now ≡ tree.now }
        ensures point { result.point.now ≡ point.now }
        ensures most { Standing (T.meaning tree.now) (P.answer point.now) self.entry.now → AtMost (T.meaning tree.now) self.entry.now result.most }
    {
        Rows {
            enquiry: self,
            tree,
            point,
            most: MOST_ROWS,
        }
    }
}

impl<T: Tree, P: DecisionPoint> Iterator for Rows<'_, '_, T, P> {
    type Item = Row;

    ghost next_gives = { λ s r t. (t.enquiry.ghost_name ≡ s.enquiry.ghost_name) × (t.tree.now ≡ s.tree.now) × (t.point.now ≡ s.point.now) × Steps (T.meaning s.tree.now) (P.answer s.point.now) s.enquiry.now s.most r t.enquiry.now t.most };

    ghost remaining = { λ s. at_most s.most };

    fn next(&mut self) -> Option<Row> {
        if self.most == 0 {
            return None;
        }
        self.most -= 1;
        self.enquiry.step(self.tree, self.point).ok()
    }
}
