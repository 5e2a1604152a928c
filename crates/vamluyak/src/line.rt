use enquiry::row::Row;
use expansion::few::Few;
use model::call::CallRefusal;
use std::fmt;

// What there is, or `-` where there is nothing.
#[derive(Clone, Copy, Debug, PartialEq)]
pub struct OrDash<D>(pub Option<D>);

impl<D: fmt::Display> fmt::Display for OrDash<D> {
    fn fmt<W: fmt::Write>(&self, f: &mut fmt::Formatter<W>) -> fmt::Result {
        match &self.0 {
            Some(present) => write!(f, "{present}"),
            None => f.write_char('-'),
        }
    }
}

// The positions of a choice.
#[derive(Clone, Copy)]
pub struct Positions(pub Few);

impl fmt::Display for Positions {
    fn fmt<W: fmt::Write>(&self, f: &mut fmt::Formatter<W>) -> fmt::Result {
        for (i, position) in self.0.as_slice().iter().enumerate() {
            if i > 0 {
                f.write_char(',')?;
            }
            write!(f, "{position}")?;
        }
        Ok(())
    }
}

// A row for other programs.
#[derive(Clone, Copy)]
pub struct Line(pub Row);

impl fmt::Display for Line {
    fn fmt<W: fmt::Write>(&self, f: &mut fmt::Formatter<W>) -> fmt::Result {
        let Row {
            reference,
            choice,
            node,
            decision,
            status,
            cause,
            place,
        } = self.0;
        let choice = OrDash(choice.map(|choice| Positions(choice)));
        let node = OrDash(node);
        write!(f, "row\t{reference}\t{choice}\t{node}\t")?;
        let cause = cause.map_or(0, |cause| cause.number());
        write!(f, "{decision}\t{status}\t{cause}\t{place}")
    }
}

// Why a call is refused, for other programs: the number, the length needed or `-`, and why.
#[derive(Clone, Copy, Debug, PartialEq)]
pub struct Refused(pub CallRefusal);

impl fmt::Display for Refused {
    fn fmt<W: fmt::Write>(&self, f: &mut fmt::Formatter<W>) -> fmt::Result {
        let refusal = self.0;
        let number = refusal.number();
        let needed = OrDash(match refusal {
            CallRefusal::TooShort(needed) => Some(needed),
            _ => None,
        });
        write!(f, "refused\t{number}\t{needed}\t{refusal}")
    }
}

// The first so many bytes; all, where there are fewer.
pub(crate) fn first(bytes: &[u8], length: usize) -> &[u8] {
    bytes.get(..length).unwrap_or(bytes)
}
