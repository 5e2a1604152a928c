ghost use Rattle.grants.specs.Meaning.{FirstLine};

// Grants permit at line n exactly where it is the first with the bytes that are asked for, and deny where none
// has them; a value that the request lacks makes them not applicable, and else a repeated one Indeterminate.
pub fn first_equal_line_answers() -> u8
    ensures { FirstLine }
{
    0
}
