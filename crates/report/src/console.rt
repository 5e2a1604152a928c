use crate::failed::Failed;
use crate::words::Around;
use model::refusal::Refusal;
use std::{fmt, io};

// Where what there is to say goes, and whether it is said to other programs, in fields separated by tabs, or to people.
#[derive(Clone, Copy)]
pub struct Console<'r> {
    pub rt: &'r HostRuntime,
    pub tsv: bool,
}

// What a file is to be.
#[derive(Clone, Copy, Debug, PartialEq)]
pub enum Role {
    Request,
    Tree,
    Point,
}

impl fmt::Display for Role {
    fn fmt<W: fmt::Write>(&self, f: &mut fmt::Formatter<W>) -> fmt::Result {
        f.write_str(match self {
            Role::Request => "request",
            Role::Tree => "tree",
            Role::Point => "point",
        })
    }
}

impl Console<'_> {
    pub fn print_accepted(self, file: &str, size: usize) -> io::Result<()> {
        if self.tsv {
            self.rt.println("accepted")
        } else {
            println!(self.rt; "{file}: accepted, {size} bytes")
        }
    }

    // Why a file is refused: one line for other programs, or some for people.
    fn print_refused(
        self,
        role: impl fmt::Display + Drop,
        file: &str,
        refusal: &Refusal,
    ) -> io::Result<()> {
        let defect = refusal.defect;
        let number = defect.number();
        let place = refusal.place;
        let around = Around {
            outer: refusal.outer,
            inner: refusal.inner,
        };
        if self.tsv {
            let layer = refusal.layer();
            return println!(self.rt; "refused\t{role}\t{number}\t{layer}\t{around}\t{place}");
        }
        println!(self.rt; "{file}: refused")?;
        println!(self.rt; "  refusal {number}: {defect}")?;
        if refusal.outer.is_some() {
            println!(self.rt; "  in {around}")?;
        }
        println!(self.rt; "  at byte {place}")
    }

    // Prints why a file is refused, and fails.
    pub fn refuse<T>(
        self,
        role: impl fmt::Display + Drop,
        file: &str,
        refusal: &Refusal,
    ) -> Result<T, Failed> {
        self.print_refused(role, file, refusal)?;
        Err(Failed)
    }
}
