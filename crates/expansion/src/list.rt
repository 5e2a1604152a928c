ghost use Rattle.std.specs.Prelude.{◌≡◌, ◌≤◌, length, position};
ghost use Rattle.std.specs.Option.{option_map};
ghost use Rattle.model.specs.Lists.{upto, nth};
ghost use Rattle.model.specs.Rows.{all_listed, listing as tags_listing, listings};
ghost use Rattle.request.specs.Place.{content_of};
ghost use Rattle.expansion.specs.Few.{held};
ghost use Rattle.expansion.specs.Listed.{with_tag, listing_of, Names, EachNames};

use crate::few::Few;
use crate::listing::UnknownTag;
use request::content::Element;
use request::request::Request;

// The number of the first element with a tag.
fn number_with(elements: &[Element], tag: u8) -> Option<usize>
    ensures { result ≡ position (with_tag tag) elements.now }
{
    elements.iter().position(|element| element.tag == Some(tag))
}

// The numbers of so many elements.
fn all_below(count: usize) -> Few
    requires { count ≤ 16 }
    ensures { held result ≡ upto 0 count }
{
    let mut all = Few::new();
    for number in 0..count {
        all.push(number as u8);
    }
    all
}

// What the tags of a reference list.
fn with_tags(request: &Request, tags: &[u8]) -> Result<Few, UnknownTag>
    requires { length tags.now ≤ 16 }
    ensures lists { listing_of (content_of request.now).elements result ≡ tags_listing (all_listed (content_of request.now)) 0 tags.now }
    ensures names { Names (content_of request.now).elements result }
{
    let elements = request.elements();
    let mut listed = Few::new();
    for (position, tag) in tags.iter().enumerate() {
        let number = number_with(elements, *tag).ok_or(UnknownTag {
            position: position as u8,
        })?;
        listed.push(number as u8);
    }
    Ok(listed)
}

// What the reference of this number lists; none past the last. Where a request has no references, all elements are one.
pub fn list(request: &Request, reference: usize) -> Option<Result<Few, UnknownTag>>
    ensures lists { option_map (listing_of (content_of request.now).elements) result ≡ nth (listings (content_of request.now)) reference }
    ensures names { EachNames (content_of request.now).elements result }
{
    let Some(references) = request.references() else {
        if reference > 0 {
            return None;
        }
        return Some(Ok(all_below(request.elements().len())));
    };
    let tags = references.get(reference)?;
    Some(with_tags(request, request.tags(*tags)))
}
