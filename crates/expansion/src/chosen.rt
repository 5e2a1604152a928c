ghost use Rattle.std.specs.Prelude.{◌≡◌, ◌≤◌, [], map, Some};
ghost use Rattle.std.specs.Option.{option_map};
ghost use Rattle.model.specs.Rows.{taken as taken_of, chosen as chosen_of, resource as resource_of};
ghost use Rattle.request.specs.Place.{content_of};
ghost use Rattle.single.specs.Numbers.{past};
ghost use Rattle.expansion.specs.Few.{held};
ghost use Rattle.expansion.specs.Listed.{listed_at, listed_of};
ghost use Rattle.expansion.specs.Categories.{firsts as firsts_of, picks};

use crate::categories::{category, codes, firsts, occurrences};
use crate::few::Few;
use model::codes::RESOURCE;
use request::request::Request;

// The position that is taken of a category; in the specification 0 where there is none, and no caller tells that apart.
fn taken(categories: &Few, positions: &Few, category: u8) -> u8
    ensures { result ≡ taken_of (held categories.now) (held positions.now) category }
{
    for (other, position) in categories.as_slice().iter().zip(positions.as_slice()) {
        if *other == category {
            return *position;
        }
    }
    0
}

// Of the numbers, with the category of each beside it, those at the position taken of their category.
fn pick(numbers: &Few, codes: &Few, positions: &Few) -> Few
    ensures { held result ≡ picks (firsts_of [] (held codes.now)) (held positions.now) [] (held numbers.now) (held codes.now) }
{
    let categories = firsts(codes);
    let each = codes.as_slice();
    let mut picked = Few::new();
    for (i, (number, code)) in numbers.as_slice().iter().zip(each).enumerate() {
        if occurrences(&each[..i], *code) == taken(&categories, positions, *code) {
            picked.push(*number);
        }
    }
    picked
}

// The elements that a choice takes, in the order in which they are listed.
pub fn chosen(request: &Request, listed: &Few, choice: &Few) -> Few
    ensures chosen { listed_of (content_of request.now).elements (held result) ≡ chosen_of (listed_of (content_of request.now).elements (held listed.now)) (held choice.now) }
    ensures names { past (held result) ≤ past (held listed.now) }
{
    pick(listed, &codes(request, listed), choice)
}

// The number of the first resource among chosen elements.
pub fn resource(request: &Request, chosen: &Few) -> Option<u8>
    ensures { option_map (listed_at (content_of request.now).elements) result ≡ resource_of (listed_of (content_of request.now).elements (held chosen.now)) }
{
    let elements = request.elements();
    chosen
        .as_slice()
        .iter()
        .copied()
        .find(|number| category(elements, *number) == RESOURCE)
}
