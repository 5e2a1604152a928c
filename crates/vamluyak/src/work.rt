use crate::calls::call_named;
use crate::line::{Line, Refused, first};
use crate::session::Session;
use decision::point::DecisionPoint;
use enquiry::work::Reply;
use report::failed::Failed;
use report::text::{Digits, Text};
use std::io;
use std::io::BufRead;
use tree::Tree;

impl<T: Tree, P: DecisionPoint> Session<'_, T, P> {
    // Makes the calls that standard input names, and answers each line that is not empty by one line.
    pub(crate) fn work(&mut self) -> Result<(), Failed> {
        let rt = self.console.rt;
        let mut input = rt.stdin().lock();
        let mut line = Vec::new(rt.alloc());
        // A count: nothing says that standard input ends.
        for _ in 0..u64::MAX {
            line.clear();
            if input.read_until(b'\n', &mut line)? == 0 {
                return Ok(());
            }
            self.answer_line(line.as_slice().trim_ascii())?;
        }
        Ok(())
    }

    fn answer_line(&mut self, line: &[u8]) -> Result<(), Failed> {
        if line.is_empty() {
            return Ok(());
        }
        let rt = self.console.rt;
        let Some(call) = call_named(line) else {
            let line = Text(line);
            return Ok(println!(rt; "unknown\t{line}")?);
        };
        for answer in &self.answer(call)? {
            match answer {
                Ok(reply) => print_reply(rt, reply)?,
                Err(refusal) => rt.println(Refused(*refusal))?,
            }
        }
        Ok(())
    }
}

fn print_reply(rt: &HostRuntime, reply: &Reply) -> io::Result<()> {
    match reply {
        Reply::Row(row) => rt.println(Line(*row)),
        Reply::Wrote(length, bytes) => {
            let digits = Digits(first(bytes.as_slice(), *length));
            println!(rt; "shown\t{length}\t{digits}")
        }
        Reply::Rewound => rt.println("rewound"),
        Reply::Judged(decision) => println!(rt; "verdict\t{decision}"),
    }
}
