ghost use Rattle.std.specs.Prelude.{◌≡◌, ◌<◌, Some, IfSome};
ghost use Rattle.hex_text.specs.Small.{Small, SmallAfter};
ghost use Rattle.hex_text.specs.Text.{digit as digit_of, turn as turn_of};

// What was read last of a hexadecimal text.
#[derive(Clone, Copy, Debug, PartialEq)]
pub enum Mode {
    Between,
    FirstDigit(u8),
    Comment,
}

// What one more character does, where it belongs there.
#[derive(Clone, Copy, Debug, PartialEq)]
pub enum Turn {
    Goes(Mode),
    EndsLine,
    Gives(u8),
}

// The value of a hexadecimal digit.
fn digit(character: u8) -> Option<u8>
    ensures value { result ≡ digit_of character }
    ensures small { IfSome result (λ d. d < 16) }
{
    match character {
        b'0'..=b'9' => Some(character - b'0'),
        b'A'..=b'F' => Some(character - b'A' + 10),
        b'a'..=b'f' => Some(character - b'a' + 10),
        _ => None,
    }
}

fn between(character: u8) -> Option<Turn>
    ensures turns { result ≡ turn_of Mode.Between character }
    ensures small { IfSome result SmallAfter }
{
    Some(match character {
        b'\n' => Turn::EndsLine,
        b'#' => Turn::Goes(Mode::Comment),
        b'\t' | b'\r' | b' ' => Turn::Goes(Mode::Between),
        _ => Turn::Goes(Mode::FirstDigit(digit(character)?)),
    })
}

fn after_digit(high: u8, character: u8) -> Option<Turn>
    requires { high < 16 }
    ensures turns { result ≡ turn_of (Mode.FirstDigit high) character }
    ensures small { IfSome result SmallAfter }
{
    let low = digit(character)?;
    Some(Turn::Gives(high * 16 + low))
}

fn in_comment(character: u8) -> Turn
    ensures turns { Some result ≡ turn_of Mode.Comment character }
    ensures small { SmallAfter result }
{
    match character {
        b'\n' => Turn::EndsLine,
        _ => Turn::Goes(Mode::Comment),
    }
}

pub(crate) fn next_turn(mode: Mode, character: u8) -> Option<Turn>
    requires { Small mode }
    ensures turns { result ≡ turn_of mode character }
    ensures small { IfSome result SmallAfter }
{
    match mode {
        Mode::Between => between(character),
        Mode::FirstDigit(high) => after_digit(high, character),
        Mode::Comment => Some(in_comment(character)),
    }
}
