ghost use Rattle.std.specs.Prelude.{◌≡◌, IfOk};
ghost use Rattle.model.specs.Content.{read_request};
ghost use Rattle.model.specs.Tree.{Tree as Meaning};
ghost use Rattle.model.specs.Points.{Point};
ghost use Rattle.model.specs.Law.{step as stepping, show as showing, rewind as rewinding, rewound, verdict as judging};
ghost use Rattle.request.specs.Answered.{answered, Opened};
ghost use Rattle.request.specs.Held.{none_held};
ghost use Rattle.request.specs.Place.{bytes_of, bytes_held};
ghost use Rattle.request.specs.Refused.{in_request_fault};
ghost use Rattle.enquiry.specs.Calls.{content, Source, Starts, Opens, Works, step_told, show_told, verdict_told, Left};
ghost use Rattle.enquiry.specs.Runs.{Lawful, Law};

use crate::asking::{row_at, write};
use crate::enquiry::Enquiry;
use crate::row::Row;
use cursor::cursor::Cursor;
use cursor::spot::Basis;
use decision::point::DecisionPoint;
use model::call::CallRefusal;
use model::decision::Decision;
use request::fault::RequestFault;
use request::request::Request;
use std::alloc::{AllocError, Global};
use tree::Tree;

impl<'a> Enquiry<'a> {
    // An enquiry with no rows. Reserves what any request and any tree can need; only this call can want memory.
    pub fn new(heap: Global) -> Result<Enquiry<'a>, AllocError>
        ensures empty { IfOk result (λ e. content e ≡ none_held) }
        ensures starts { IfOk result (λ e. (tree : Meaning) → Starts tree e) }
    {
        let request = Request::new(heap)?;
        let cursor = Cursor::new(heap)?;
        Ok(Enquiry {
            request,
            cursor,
            handed: 0,
            permitted: true,
        })
    }

    // Stands before the first row of the request that is held.
    fn restart<T: Tree>(&mut self, tree: &T)
        ensures starts { Source (content self.old) → Starts (T.meaning tree.now) self.new }
        ensures same { self.new.request ≡ self.old.request }
    {
        self.cursor.start(&self.request, tree);
        self.handed = 0;
        self.permitted = true;
    }

    // Reads the request that the bytes spell and stands before its first row over this tree; a refusal leaves all as it was.
    pub fn open<T: Tree>(&mut self, bytes: &'a [u8], tree: &T) -> Result<(), RequestFault>
        ensures answer { answered in_request_fault (content self.new) result ≡ read_request bytes.now }
        ensures spelled { Opened bytes.now (content self.new) result }
        ensures held { bytes_of self.new.request ≡ bytes_held result bytes.now self.old.request }
        ensures opens { Opens (T.meaning tree.now) self.old result self.new }
        ensures law { Lawful (T.meaning tree.now) result self.new }
    {
        self.request.open(bytes)?;
        self.restart(tree);
        Ok(())
    }

    // The request that was opened last; a new enquiry has an empty one.
    pub fn request(&self) -> &Request<'a>
        ensures { result.now ≡ self.now.request }
    {
        &self.request
    }

    // Hands out the next row and moves on.
    pub fn step<T: Tree, P: DecisionPoint>(
        &mut self,
        tree: &T,
        point: &P,
    ) -> Result<Row, CallRefusal>
        ensures { Works (T.meaning tree.now) (P.answer point.now) self.old stepping (step_told result) self.new }
    {
        let spot = self.cursor.spot().ok_or(CallRefusal::Ended)?;
        let row = row_at(&self.request, spot, tree, point);
        self.cursor.advance(&self.request, tree);
        self.handed = self.handed.saturating_add(1);
        self.permitted &= row.decision == Decision::Permit;
        Ok(row)
    }

    // Writes the next row's single request at the start of the buffer and answers its length; no later byte is touched.
    pub fn show<T: Tree>(&self, tree: &T, buffer: &mut [u8]) -> Result<usize, CallRefusal>
        ensures shows { (point : Point) → Works (T.meaning tree.now) point self.now (showing buffer.old) (show_told result buffer.new) self.now }
        ensures left { Left result buffer.old buffer.new }
    {
        let spot = self.cursor.spot().ok_or(CallRefusal::Ended)?;
        let Basis::Single(chosen) = spot.basis else {
            return Err(CallRefusal::FaultRow);
        };
        write(&self.request, &chosen, spot.node, tree, buffer).map_err(
            |short| CallRefusal::TooShort(short.needed),
        )
    }

    // Stands before the first row again.
    pub fn rewind<T: Tree>(&mut self, tree: &T)
        ensures { (point : Point) → Works (T.meaning tree.now) point self.old rewinding rewound self.new }
    {
        self.restart(tree);
    }

    // Permit where every row is a Permit, and otherwise Deny, once the last row has been handed out.
    pub fn verdict(&self) -> Result<Decision, CallRefusal>
        ensures { (tree : Meaning) (point : Point) → Works tree point self.now judging (verdict_told result) self.now }
    {
        if !self.request.combined() {
            return Err(CallRefusal::NoVerdict);
        }
        if self.cursor.spot().is_some() {
            return Err(CallRefusal::RowsLeft);
        }
        if self.permitted {
            Ok(Decision::Permit)
        } else {
            Ok(Decision::Deny)
        }
    }
}
