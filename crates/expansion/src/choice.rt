ghost use Rattle.std.specs.Prelude.{◌≡◌, ◌≤◌, true, ◌∷◌, length};
ghost use Rattle.std.specs.Option.{option_map};
ghost use Rattle.model.specs.Rows.{choices};
ghost use Rattle.expansion.specs.Few.{held};
ghost use Rattle.expansion.specs.Choice.{positive, zeros, after_choice, next_choice, from_choice, Long};

use crate::few::Few;

// The first choice: of each category the first element. A choice has one position for each category.
pub fn first(widths: &Few) -> Few
    ensures first { held result ≡ zeros (held widths.now) }
    ensures walk { positive (held widths.now) ≡ true → choices (held widths.now) ≡ held result ∷ after_choice (held widths.now) (held result) }
    ensures long { length (held result) ≡ length (held widths.now) }
{
    widths.map(|_width| 0)
}

// The choice after this one, if there is one: the last category that can moves on, and those after it start anew.
pub fn next(widths: &Few, choice: &Few) -> Option<Few>
    ensures walk { positive (held widths.now) ≡ true → length (held choice.now) ≡ length (held widths.now) → after_choice (held widths.now) (held choice.now) ≡ from_choice (held widths.now) (option_map held result) }
    ensures long { Long (held widths.now) result }
{
    let widths = widths.as_slice();
    let positions = choice.as_slice();
    if positions.len() != widths.len() {
        return None;
    }
    let mut next = *choice;
    // By index: one place of three lists, and from the last on.
    for i in (0..widths.len()).rev() {
        if positions[i] < widths[i].saturating_sub(1) {
            next.put(i, positions[i] + 1);
            return Some(next);
        }
        next.put(i, 0);
    }
    None
}
