ghost use Rattle.std.specs.Prelude.{replicate, IfOk};
ghost use Rattle.model.specs.Law.{show as showing};
ghost use Rattle.model.specs.Points.{Point};
ghost use Rattle.enquiry.specs.Calls.{Works};
ghost use Rattle.enquiry.specs.Worked.{call_of, answer_of, calls_of, replies_of, Worked};

use crate::enquiry::Enquiry;
use crate::row::Row;
use decision::point::DecisionPoint;
use model::call::CallRefusal;
use model::decision::Decision;
use std::alloc::{AllocError, Global};
use tree::Tree;

// A call of an enquiry, to be made.
#[derive(Clone, Copy, Debug, PartialEq)]
pub enum Call {
    Step,
    // Into a buffer of so many zeros.
    Show(usize),
    Rewind,
    Verdict,
}

// What a call that is not refused was answered.
#[derive(Drop)]
pub enum Reply {
    Row(Row),
    // The length of the single request, and what the buffer then holds.
    Wrote(usize, Vec<u8>),
    Rewound,
    Judged(Decision),
}

impl<'a> Enquiry<'a> {
    // Shows into a buffer of its own, of so many zeros.
    fn show_zeros<T: Tree>(
        &self,
        heap: Global,
        tree: &T,
        size: usize,
    ) -> Result<Result<Reply, CallRefusal>, AllocError>
        ensures { IfOk result (λ answer. (point : Point) → Works (T.meaning tree.now) point self.now (showing (replicate size 0)) (answer_of answer) self.now) }
    {
        let mut buffer = vec![in heap; 0; size]?;
        let shown = self.show(tree, buffer.as_mut_slice());
        Ok(shown.map(|length| Reply::Wrote(length, buffer)))
    }

    fn answer<T: Tree, P: DecisionPoint>(
        &mut self,
        heap: Global,
        tree: &T,
        point: &P,
        call: Call,
    ) -> Result<Result<Reply, CallRefusal>, AllocError>
        ensures { IfOk result (λ answer. Works (T.meaning tree.now) (P.answer point.now) self.old (call_of call) (answer_of answer) self.new) }
    {
        match call {
            Call::Step => Ok(self.step(tree, point).map(Reply::Row)),
            Call::Show(size) => self.show_zeros(heap, tree, size),
            Call::Rewind => {
                self.rewind(tree);
                Ok(Ok(Reply::Rewound))
            }
            Call::Verdict => Ok(self.verdict().map(Reply::Judged)),
        }
    }

    // Makes the calls one after another and answers their replies. Only this may want memory, for the replies and the buffers.
    pub fn work<T: Tree, P: DecisionPoint>(
        &mut self,
        heap: Global,
        tree: &T,
        point: &P,
        calls: &[Call],
    ) -> Result<Vec<Result<Reply, CallRefusal>>, AllocError>
        ensures { IfOk result (λ replies. Worked (T.meaning tree.now) (P.answer point.now) self.old (calls_of calls.now) (replies_of replies.items) self.new) }
    {
        let mut replies = Vec::new(heap);
        for call in calls {
            let reply = self.answer(heap, tree, point, *call)?;
            replies.push(reply)?;
        }
        Ok(replies)
    }
}
