use crate::table::shown::Shown;
use decision::point::DecisionPoint;
use enquiry::enquiry::Enquiry;
use enquiry::row::Row;
use enquiry::work::{Call, Reply};
use inspect::file::File;
use model::call::CallRefusal;
use model::decision::Decision;
use model::refusal::Refusal;
use report::console::{Console, Role};
use report::failed::Failed;
use std::alloc::AllocError;
use tree::Tree;

// An enquiry over one tree and one decision point, and where its answers are printed.
#[derive(Drop)]
pub struct Session<'s, T, P> {
    pub(crate) console: Console<'s>,
    enquiry: Enquiry<'s>,
    tree: &'s T,
    point: &'s P,
}

impl<'s, T: Tree, P: DecisionPoint> Session<'s, T, P> {
    // Says why the request is refused, and fails, where it is.
    pub(crate) fn open(
        console: Console<'s>,
        request: &'s File<'_>,
        tree: &'s T,
        point: &'s P,
    ) -> Result<Session<'s, T, P>, Failed> {
        let mut enquiry = Enquiry::new(console.rt.alloc())?;
        match enquiry.open(request.bytes(), tree) {
            Ok(()) => {}
            Err(fault) => console.refuse(Role::Request, request.name, &Refusal::from(fault))?,
        }
        Ok(Session {
            console,
            enquiry,
            tree,
            point,
        })
    }

    pub(crate) fn step(&mut self) -> Result<Row, CallRefusal> {
        self.enquiry.step(self.tree, self.point)
    }

    pub(crate) fn show(&self, buffer: &mut [u8]) -> Result<usize, CallRefusal> {
        self.enquiry.show(self.tree, buffer)
    }

    pub(crate) fn rewind(&mut self) {
        self.enquiry.rewind(self.tree)
    }

    pub(crate) fn verdict(&self) -> Result<Decision, CallRefusal> {
        self.enquiry.verdict()
    }

    pub(crate) fn answer(
        &mut self,
        call: Call,
    ) -> Result<Vec<Result<Reply, CallRefusal>>, AllocError> {
        let heap = self.console.rt.alloc();
        self.enquiry.work(heap, self.tree, self.point, &[call])
    }

    // A row as the table shows it.
    pub(crate) fn shown(&self, row: Row, number: u64, total: u64) -> Shown<'_, 's, T> {
        Shown::new(self.enquiry.request(), self.tree, row, number, total)
    }
}
