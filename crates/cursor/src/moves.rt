ghost use Rattle.std.specs.Prelude.{◌≡◌, [], IfOk};
ghost use Rattle.model.specs.Content.{Request as Content};
ghost use Rattle.model.specs.Rows.{spots};
ghost use Rattle.model.specs.Tree.{Tree as Meaning};
ghost use Rattle.tree.specs.Reached.{extent_of};
ghost use Rattle.request.specs.Place.{content_of};
ghost use Rattle.cursor.specs.Ahead.{spot_in, Explored, Over, Before, Unmoved, Reaches, Settles, Enters, Leaves, Advances, Tells};

use crate::cursor::{Cursor, Stand};
use crate::spot::{Basis, Spot};
use expansion::asked::Exploration;
use expansion::categories::widths;
use expansion::choice::{first, next};
use expansion::chosen::{chosen, resource};
use expansion::few::Few;
use expansion::list::list;
use expansion::scope::scope;
use model::decision::Cause;
use request::request::Request;
use std::alloc::{AllocError, Global};
use tree::Tree;
use tree::reach::Reach;

// Request and tree are handed in with each call and no struct of both: their owner lends them elsewhere between calls.
impl Cursor {
    // A cursor with no row ahead. Reserves what any tree can need; only this call can want memory.
    pub fn new(heap: Global) -> Result<Cursor, AllocError>
        ensures { IfOk result (λ c. (tree : Meaning) (q : Content) → Before tree q [] c) }
    {
        let reach = Reach::new(heap)?;
        Ok(Cursor {
            reference: 0,
            listed: Few::new(),
            widths: Few::new(),
            choice: Few::new(),
            chosen: Few::new(),
            stand: Stand::Ended,
            reach,
            explored: None,
        })
    }

    // The nodes reached are those that links lead to from the wanted one; what is there already is not explored again.
    fn explore<T: Tree>(&mut self, tree: &T, wanted: Exploration)
        ensures reaches { Explored (T.meaning tree.now) self.old → Reaches (T.meaning tree.now) (extent_of wanted.extent) wanted.node self.new }
        ensures unmoved { Unmoved self.old self.new }
        ensures chosen { self.new.chosen ≡ self.old.chosen }
    {
        if self.explored == Some(wanted) {
            return;
        }
        self.reach.search(tree, wanted.node, wanted.extent);
        self.explored = Some(wanted);
    }

    // Stands before the first row of the present choice.
    fn settle<T: Tree>(&mut self, request: &Request<'_>, tree: &T)
        ensures { Settles (T.meaning tree.now) (content_of request.now) self.old self.new }
    {
        self.chosen = chosen(request, &self.listed, &self.choice);
        let Some(element) = resource(request, &self.chosen) else {
            self.stand = Stand::Itself;
            return;
        };
        match scope(request, usize::from(element), tree) {
            Err(cause) => self.stand = Stand::Fault(cause, element),
            Ok(None) => self.stand = Stand::Itself,
            Ok(Some(wanted)) => {
                self.explore(tree, wanted);
                self.stand = Stand::Node(0);
            }
        }
    }

    // Stands before the first row of this reference, or past the last row where there is no such reference.
    fn enter<T: Tree>(&mut self, request: &Request<'_>, tree: &T, reference: usize)
        ensures { Enters (T.meaning tree.now) (content_of request.now) reference self.old self.new }
    {
        self.reference = reference;
        match list(request, reference) {
            None => self.stand = Stand::Ended,
            Some(Err(unknown)) => self.stand = Stand::UnknownTag(unknown.position),
            Some(Ok(listed)) => {
                self.listed = listed;
                self.widths = widths(request, &self.listed);
                self.choice = first(&self.widths);
                self.settle(request, tree);
            }
        }
    }

    // Stands before the first row of a request.
    pub fn start<T: Tree>(&mut self, request: &Request<'_>, tree: &T)
        ensures { Before (T.meaning tree.now) (content_of request.now) (spots (content_of request.now) (T.meaning tree.now)) self.new }
    {
        self.explored = None;
        self.enter(request, tree, 0);
    }

    // Stands before the first row of the next choice, or else of the next reference.
    fn leave_choice<T: Tree>(&mut self, request: &Request<'_>, tree: &T)
        ensures { Leaves (T.meaning tree.now) (content_of request.now) self.old self.new }
    {
        match next(&self.widths, &self.choice) {
            Some(choice) => {
                self.choice = choice;
                self.settle(request, tree);
            }
            None => self.enter(request, tree, self.reference.saturating_add(1)),
        }
    }

    // Stands before the row after the next one.
    pub fn advance<T: Tree>(&mut self, request: &Request<'_>, tree: &T)
        ensures { Advances (T.meaning tree.now) (content_of request.now) self.old self.new }
    {
        match self.stand {
            Stand::Ended => {}
            Stand::UnknownTag(_) => self.enter(request, tree, self.reference.saturating_add(1)),
            Stand::Node(place) => {
                if place < self.reach.nodes().len().saturating_sub(1) {
                    self.stand = Stand::Node(place + 1);
                } else {
                    self.leave_choice(request, tree);
                }
            }
            _ => self.leave_choice(request, tree),
        }
    }

    // The spot of a row of the present choice.
    fn in_choice(&self, node: Option<usize>, basis: Basis) -> Spot
        ensures { result ≡ spot_in self.now node basis }
    {
        Spot {
            reference: self.reference,
            choice: Some(self.choice),
            node,
            basis,
        }
    }

    // Where the next row stands; none past the last.
    pub fn spot(&self) -> Option<Spot>
        ensures { (tree : Meaning) (q : Content) → Over tree q self.now → Tells tree q self.now result }
    {
        match self.stand {
            Stand::Ended => None,
            Stand::UnknownTag(position) => Some(Spot {
                reference: self.reference,
                choice: None,
                node: None,
                basis: Basis::Fault(Cause::UnknownTag, position),
            }),
            Stand::Fault(cause, element) => {
                Some(self.in_choice(None, Basis::Fault(cause, element)))
            }
            Stand::Itself => Some(self.in_choice(None, Basis::Single(self.chosen))),
            Stand::Node(place) => {
                let reached = self.reach.nodes().get(place)?;
                Some(self.in_choice(Some(reached.node), Basis::Single(self.chosen)))
            }
        }
    }
}
