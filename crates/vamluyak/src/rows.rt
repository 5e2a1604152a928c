use crate::line::Line;
use crate::session::Session;
use crate::table::Table;
use crate::tally::Tally;
use decision::point::DecisionPoint;
use enquiry::row::Row;
use model::call::CallRefusal;
use model::decision::Decision;
use report::console::Console;
use report::failed::Failed;
use std::io;
use tree::Tree;

impl<'s, T: Tree, P: DecisionPoint> Session<'s, T, P> {
    // Every row, and the verdict.
    pub(crate) fn rows(&mut self) -> Result<(), Failed> {
        if self.console.tsv {
            self.print_lines()?;
            Ok(print_verdict(self.console, self.verdict())?)
        } else {
            self.tabulate()
        }
    }

    // For people: the rows are counted first, so that each can say of how many it is.
    fn tabulate(&mut self) -> Result<(), Failed> {
        let console = self.console;
        let mut table = Table::new(console.rt.alloc())?;
        let total = self.measure(&mut table)?;
        self.rewind();
        table.print(console.rt, |column| column)?;
        let tally = self.print_rows(&mut table, total)?;
        print_verdict(console, self.verdict())?;
        Ok(println!(console.rt; "rows: {total}, of them {tally}")?)
    }

    fn print_lines(&mut self) -> Result<(), Failed> {
        let rt = self.console.rt;
        self.each_row(|_, row, _| Ok(rt.println(Line(row))?))?;
        Ok(())
    }

    // Makes the columns as wide as the rows that are left need, and answers how many these are.
    fn measure(&mut self, table: &mut Table) -> Result<u64, Failed> {
        self.each_row(|session, row, number| {
            let shown = session.shown(row, number, number);
            Ok(table.widen(|column| shown.cell(column))?)
        })
    }

    fn print_rows(&mut self, table: &mut Table, total: u64) -> Result<Tally, Failed> {
        let rt = self.console.rt;
        let mut tally = Tally::default();
        self.each_row(|session, row, number| {
            tally.count(row.decision);
            let shown = session.shown(row, number, total);
            table.print(rt, |column| shown.cell(column))
        })?;
        Ok(tally)
    }

    // Visits the rows that are left, each with its number from 1, and answers how many they are.
    fn each_row<F: FnMut(&Session<'s, T, P>, Row, u64) -> Result<(), Failed> + Drop>(
        &mut self,
        mut visit: F,
    ) -> Result<u64, Failed>
        requires { F.IsAlwaysCallable visit }
    {
        let mut total = 0;
        // A count: the request is read at each row, and an iterator over the rows would borrow the enquiry.
        for number in 1..u64::MAX {
            let Ok(row) = self.step() else {
                return Ok(total);
            };
            visit(self, row, number)?;
            total = number;
        }
        Ok(total)
    }
}

fn print_verdict(console: Console<'_>, verdict: Result<Decision, CallRefusal>) -> io::Result<()> {
    match verdict {
        Ok(decision) if console.tsv => println!(console.rt; "verdict\t{decision}"),
        Ok(decision) => println!(console.rt; "verdict: {decision}"),
        Err(refusal) => {
            let number = refusal.number();
            if console.tsv {
                println!(console.rt; "verdict\trefused\t{number}")
            } else {
                println!(console.rt; "no verdict: {refusal} (refusal {number})")
            }
        }
    }
}
