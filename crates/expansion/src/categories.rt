ghost use Rattle.std.specs.Prelude.{◌≡◌, ◌≤◌, true, [], map, length};
ghost use Rattle.model.specs.Rows.{categories as categories_of, widths as widths_of, occurrences as occurrences_of};
ghost use Rattle.request.specs.Place.{content_of};
ghost use Rattle.expansion.specs.Few.{held};
ghost use Rattle.expansion.specs.Listed.{listed_of};
ghost use Rattle.expansion.specs.Categories.{code_in, code_at, firsts as firsts_of, count_in};
ghost use Rattle.expansion.specs.Choice.{positive};

use crate::few::Few;
use request::content::Element;
use request::request::Request;

// Past the last element the specification has a blank one, whose category is 0; callers would turn an Option back into it.
pub(crate) fn category(elements: &[Element], number: u8) -> u8
    ensures { result ≡ code_in elements.now number }
{
    elements
        .get(usize::from(number))
        .map_or(0, |element| element.category)
}

// The category of each listed element.
pub(crate) fn codes(request: &Request, listed: &Few) -> Few
    ensures { held result ≡ map (code_at (content_of request.now).elements) (held listed.now) }
{
    let elements = request.elements();
    listed.map(|number| category(elements, number))
}

// Each category once, by first appearance.
pub(crate) fn firsts(codes: &Few) -> Few
    ensures { held result ≡ firsts_of [] (held codes.now) }
{
    let mut seen = Few::new();
    for code in codes.as_slice() {
        if !seen.contains(*code) {
            seen.push(*code);
        }
    }
    seen
}

pub(crate) fn occurrences(codes: &[u8], code: u8) -> u8
    requires { length codes.now ≤ 16 }
    ensures { result ≡ occurrences_of code codes.now }
{
    codes.iter().filter(|other| **other == code).count() as u8
}

// How often each category occurs, by first appearance.
fn counts(codes: &Few) -> Few
    ensures { held result ≡ map (count_in (held codes.now)) (firsts_of [] (held codes.now)) }
{
    let each = codes.as_slice();
    firsts(codes).map(|category| occurrences(each, category))
}

// The categories of the listed elements, by first appearance.
pub fn categories(request: &Request, listed: &Few) -> Few
    ensures { held result ≡ categories_of [] (listed_of (content_of request.now).elements (held listed.now)) }
{
    firsts(&codes(request, listed))
}

// How many elements each of those categories has.
pub fn widths(request: &Request, listed: &Few) -> Few
    ensures widths { held result ≡ widths_of (listed_of (content_of request.now).elements (held listed.now)) }
    ensures positive { positive (held result) ≡ true }
{
    counts(&codes(request, listed))
}
