use std::fmt;
use std::str::from_utf8;

// A text as people read it: in quotes if every byte of it can be printed so, else in hexadecimal.
#[derive(Clone, Copy, Debug, PartialEq)]
pub struct Text<'a>(pub &'a [u8]);

fn is_plain(b: u8) -> bool {
    matches!(b, b' '..=b'~') && b != b'"'
}

impl fmt::Display for Text<'_> {
    fn fmt<W: fmt::Write>(&self, f: &mut fmt::Formatter<W>) -> fmt::Result {
        match from_utf8(self.0) {
            Ok(text) if text.bytes().all(is_plain) => write!(f, "\"{text}\""),
            _ => {
                f.write_str("hex")?;
                for b in self.0 {
                    write!(f, " {b:02x}")?;
                }
                Ok(())
            }
        }
    }
}

// Bytes as hexadecimal digits, two to a byte and nothing between them.
#[derive(Clone, Copy, Debug, PartialEq)]
pub struct Digits<'a>(pub &'a [u8]);

impl fmt::Display for Digits<'_> {
    fn fmt<W: fmt::Write>(&self, f: &mut fmt::Formatter<W>) -> fmt::Result {
        for b in self.0 {
            write!(f, "{b:02x}")?;
        }
        Ok(())
    }
}
