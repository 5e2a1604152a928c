ghost use Rattle.std.specs.Prelude.{◌≡◌, ◌≤◌, drop, IfOk, MatchResult, OnErr};
ghost use Rattle.model.specs.Layout.{flags, code as code_field, bytes as some_bytes, text as text_field, wide as wide_field, end as at_end};
ghost use Rattle.wire.specs.Bytes.{ByteAt, EndsAt};
ghost use Rattle.wire.specs.Told.{told, from, Reads, in_field, itself, spanned};

use crate::fault::Fault;
use crate::span::Span;
use model::refusal::Defect;

// Reads a file, field after field. A refusal leaves the place at the field.
#[derive(Clone, Copy)]
pub struct Reader<'a> {
    bytes: &'a [u8],
    place: usize,
}

impl<'a> Reader<'a> {
    // At the first byte.
    pub fn new(bytes: &'a [u8]) -> Reader<'a>
        ensures bytes { result.bytes.now ≡ bytes.now }
        ensures place { result.place ≡ 0 }
    {
        Reader::at(bytes, 0)
    }

    // At any place; past the end, as at it.
    pub fn at(bytes: &'a [u8], place: usize) -> Reader<'a>
        ensures bytes { result.bytes.now ≡ bytes.now }
        ensures place { result.place ≡ place }
    {
        Reader { bytes, place }
    }

    // The whole file.
    pub fn bytes(&self) -> &'a [u8]
        ensures { result ≡ self.now.bytes }
    {
        let Reader { bytes, .. } = *self;
        bytes
    }

    // That the next field is refused.
    pub fn fault(&self, defect: Defect) -> Fault
        ensures { result ≡ record { defect = defect; place = self.now.place } }
    {
        Fault {
            defect,
            place: self.place,
        }
    }

    // The bytes from the place on; none past their end.
    fn rest(&self) -> &'a [u8]
        ensures { result.now ≡ drop self.now.place self.now.bytes.now }
    {
        let first = self.place.min(self.bytes.len());
        &self.bytes[first..]
    }

    // The byte at the place, and the place after it.
    fn byte(&self) -> Result<(u8, usize), Fault>
        ensures { MatchResult result (λ x. ByteAt self.now.bytes.now self.now.place x.0 x.1) (λ e. EndsAt self.now.bytes.now self.now.place e) }
    {
        let [b, after @ ..] = self.rest() else {
            return Err(self.fault(Defect::EndsEarly));
        };
        Ok((*b, self.bytes.len() - after.len()))
    }

    // A map, whose named bits are the lowest ones and make up `named`.
    pub fn map(&mut self, named: u8) -> Result<u8, Fault>
        ensures read { Reads in_field itself self.old result self.new (flags named) }
        ensures kept { OnErr result (self.new ≡ self.old) }
    {
        let (b, after) = self.byte()?;
        if b > named {
            return Err(self.fault(Defect::UnnamedBit));
        }
        self.place = after;
        Ok(b)
    }

    // A count, a length or a code.
    pub fn code(&mut self, low: u8, high: u8) -> Result<u8, Fault>
        ensures read { Reads in_field itself self.old result self.new (code_field low high) }
        ensures kept { OnErr result (self.new ≡ self.old) }
        ensures high { IfOk result (λ b. b ≤ high) }
    {
        let (b, after) = self.byte()?;
        if b < low || high < b {
            return Err(self.fault(Defect::OutOfRange));
        }
        self.place = after;
        Ok(b)
    }

    // A number of two bytes, the high one first.
    pub fn wide(&mut self, low: u16, high: u16) -> Result<u16, Fault>
        ensures read { Reads in_field itself self.old result self.new (wide_field low high) }
        ensures kept { OnErr result (self.new ≡ self.old) }
        ensures high { IfOk result (λ n. n ≤ high) }
    {
        let left = self.rest();
        let [first, second, after @ ..] = left else {
            return Err(Fault {
                defect: Defect::EndsEarly,
                place: self.place + left.len(),
            });
        };
        let number = *first as u16 * 256 + *second as u16;
        if number < low || high < number {
            return Err(self.fault(Defect::OutOfRange));
        }
        self.place = self.bytes.len() - after.len();
        Ok(number)
    }

    // The next `count` bytes.
    fn next_bytes(&mut self, count: u8) -> Result<Span, Fault>
        ensures read { Reads in_field spanned self.old result self.new (some_bytes count) }
        ensures kept { OnErr result (self.new ≡ self.old) }
    {
        let first = self.place;
        let count = count as usize;
        let left = self.rest().len();
        if left < count {
            return Err(Fault {
                defect: Defect::EndsEarly,
                place: first + left,
            });
        }
        self.place = first + count;
        Ok(Span { first, count })
    }

    // A length byte and as many bytes.
    pub fn text(&mut self, low: u8, high: u8) -> Result<Span, Fault>
        ensures read { Reads in_field spanned self.old result self.new (text_field low high) }
        ensures kept { OnErr result (self.new ≡ self.old) }
    {
        let mut after = *self;
        let count = after.code(low, high)?;
        let span = after.next_bytes(count)?;
        *self = after;
        Ok(span)
    }

    // Nothing is left.
    pub fn end(&self) -> Result<(), Fault>
        ensures { told in_field (itself self.now.bytes.now) result self.now ≡ from self.now (at_end tt) }
    {
        if self.rest().is_empty() {
            Ok(())
        } else {
            Err(self.fault(Defect::BytesLeft))
        }
    }
}
