use enquiry::work::Call;
use std::str::from_utf8;

// The call that a line of standard input names. A buffer has at most 65,535 bytes.
pub(crate) fn call_named(line: &[u8]) -> Option<Call> {
    match from_utf8(line).ok()? {
        "step" => Some(Call::Step),
        "rewind" => Some(Call::Rewind),
        "verdict" => Some(Call::Verdict),
        text => show_named(text),
    }
}

fn show_named(text: &str) -> Option<Call> {
    let size: u16 = text.strip_prefix("show ")?.trim().parse().ok()?;
    Some(Call::Show(usize::from(size)))
}
