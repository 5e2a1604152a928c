ghost use Rattle.std.specs.Prelude.{◌≡◌, Some};
ghost use Rattle.model.specs.Numbers.{call_refusal_number};
ghost use Rattle.model.specs.Words.{call_refusal_words};

use std::fmt;

// Why a call of an open enquiry is refused.
#[derive(Clone, Copy, Debug, PartialEq)]
pub enum CallRefusal {
    // Step and show: the last row has been handed out.
    Ended,
    // Verdict: a row is left.
    RowsLeft,
    // Verdict: the request has no combining byte.
    NoVerdict,
    // Show: the buffer is too short; this many bytes are needed.
    TooShort(usize),
    // Show: the next row is a fault row, which has no single request.
    FaultRow,
}

// `number` is a method and no From: it is what the documents speak of.
impl CallRefusal {
    pub fn number(self) -> u8
        ensures { result ≡ call_refusal_number self }
    {
        match self {
            CallRefusal::Ended => 31,
            CallRefusal::RowsLeft => 32,
            CallRefusal::NoVerdict => 33,
            CallRefusal::TooShort(_) => 34,
            CallRefusal::FaultRow => 35,
        }
    }
}

impl fmt::Display for CallRefusal {
    ghost output = { λ r. Some (call_refusal_words r) };

    fn fmt<W: fmt::Write>(&self, f: &mut fmt::Formatter<W>) -> fmt::Result {
        f.write_str(match self {
            CallRefusal::Ended => "the last row has been handed out",
            CallRefusal::RowsLeft => "a row is left",
            CallRefusal::NoVerdict => "the request asks for no verdict",
            CallRefusal::TooShort(_) => "the buffer is too short",
            CallRefusal::FaultRow => "the next row is a fault row",
        })
    }
}
