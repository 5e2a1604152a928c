use crate::error::Unread;
use std::alloc::Global;

// The bytes that are still to be read.
#[derive(Drop)]
pub struct Input<'a> {
    rest: &'a [u8],
}

impl<'a> Input<'a> {
    pub(crate) fn new(rest: &'a [u8]) -> Input<'a> {
        Input { rest }
    }

    // One byte within a range. The bits of a map that have names are its lowest ones, so a map is a range too.
    pub(crate) fn number(&mut self, least: u8, most: u8) -> Result<u8, Unread> {
        let [byte, rest @ ..] = self.rest else {
            return Err(Unread::Malformed);
        };
        if *byte < least || *byte > most {
            return Err(Unread::Malformed);
        }
        self.rest = rest;
        Ok(*byte)
    }

    // Two bytes, the high one first.
    pub(crate) fn wide(&mut self, most: usize) -> Result<usize, Unread> {
        let high = self.number(0, 255)?;
        let low = self.number(0, 255)?;
        let number = usize::from(u16::from_be_bytes([high, low]));
        if number > most {
            return Err(Unread::Malformed);
        }
        Ok(number)
    }

    // A length within a range, and as many bytes.
    pub(crate) fn text(&mut self, heap: Global, least: u8, most: u8) -> Result<Vec<u8>, Unread> {
        let length = self.number(least, most)?;
        let (text, rest) = self
            .rest
            .split_at_checked(usize::from(length))
            .ok_or(Unread::Malformed)?;
        self.rest = rest;
        Ok(Vec::from_slice(heap, text)?)
    }

    pub(crate) fn end(&self) -> Result<(), Unread> {
        if self.rest.is_empty() {
            Ok(())
        } else {
            Err(Unread::Malformed)
        }
    }
}
