use crate::line::{Refused, first};
use crate::session::Session;
use decision::point::DecisionPoint;
use model::call::CallRefusal;
use report::failed::Failed;
use report::text::Digits;
use tree::Tree;

// The longest single request: 16 elements of 8 attributes, each with an issuer and a value of 64 bytes.
const LONGEST: usize = 2 + 16 * (3 + 8 * (3 + 65 + 65));

impl<T: Tree, P: DecisionPoint> Session<'_, T, P> {
    // The single request of each row, or `-` for a fault row.
    pub(crate) fn singles(&mut self) -> Result<(), Failed> {
        let rt = self.console.rt;
        let mut buffer = vec![in rt.alloc(); 0; LONGEST]?;
        // A count: each row is shown before the step, and an iterator over the rows would borrow the enquiry.
        for _ in 0..u64::MAX {
            match self.show(buffer.as_mut_slice()) {
                Ok(length) => rt.println(Digits(first(buffer.as_slice(), length)))?,
                Err(CallRefusal::Ended) => return Ok(()),
                Err(CallRefusal::FaultRow) => rt.println("-")?,
                Err(refusal) => rt.println(Refused(refusal))?,
            }
            let _ = self.step();
        }
        Ok(())
    }
}
