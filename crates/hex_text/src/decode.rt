ghost use Rattle.std.specs.Prelude.{◌≡◌};
ghost use Rattle.hex_text.specs.declared.decode.HexFault.TheVariants.{NoMemory as no_memory};
ghost use Rattle.hex_text.specs.Decoded.{Decoded};
ghost use Rattle.hex_text.specs.Text.{bytes_spelled};

use crate::turn::{Mode, Turn, next_turn};
use std::alloc::{AllocFailed, Global};

// Why a text gives no bytes: the first line, from 0, with a character that does not belong there, or want of memory.
#[derive(Clone, Copy, Debug, PartialEq)]
pub enum HexFault {
    Line(usize),
    NoMemory,
}

impl<T: Drop> From<AllocFailed<T>> for HexFault {
    ghost from_gives = { λ e r. r ≡ no_memory };

    fn from(_refused: AllocFailed<T>) -> HexFault {
        HexFault::NoMemory
    }
}

// The bytes that a hexadecimal text spells.
pub fn decode(heap: Global, text: &[u8]) -> Result<Vec<u8>, HexFault>
    ensures { Decoded result (bytes_spelled text.now) }
{
    let mut bytes = Vec::new(heap);
    let mut mode = Mode::Between;
    let mut line = 0;
    for character in text {
        match next_turn(mode, *character).ok_or(HexFault::Line(line))? {
            Turn::Goes(next) => mode = next,
            Turn::EndsLine => {
                mode = Mode::Between;
                line += 1;
            }
            Turn::Gives(byte) => {
                mode = Mode::Between;
                bytes.push(byte)?;
            }
        }
    }
    match mode {
        Mode::FirstDigit(_) => Err(HexFault::Line(line)),
        _ => Ok(bytes),
    }
}
