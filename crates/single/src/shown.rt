ghost use Rattle.std.specs.Prelude.{◌≡◌, length};
ghost use Rattle.std.specs.Option.{option_map};
ghost use Rattle.model.specs.Lists.{nth};
ghost use Rattle.wire.specs.Told.{spanned};
ghost use Rattle.single.specs.Shown.{seen_at, hidden as is_hidden, shown, value_at};
ghost use Rattle.single.specs.Single.{text_in};

use crate::seen::{Place, Seen};
use model::codes::{RESOURCE_ID, SCOPE};
use request::content::Attribute;
use wire::span::part;

impl Seen {
    // The value, as a part of whichever holds it.
    pub fn value<'v>(&self, bytes: &'v [u8], name: &'v [u8]) -> &'v [u8]
        ensures { result.now ≡ value_at bytes.now name.now self.now.value }
    {
        match self.value {
            Place::Part(span) => part(bytes, span),
            Place::Name => name,
        }
    }

    pub fn issuer<'v>(&self, bytes: &'v [u8]) -> Option<&'v [u8]>
        ensures { option_map text_in result ≡ option_map (spanned bytes.now) self.now.issuer }
    {
        self.issuer.map(|span| part(bytes, span))
    }
}

// An attribute of a node's resource, or of another element.
fn seen(a: Attribute, node: bool) -> Seen
    ensures { result ≡ seen_at node a }
{
    let value = if node && a.id == RESOURCE_ID {
        Place::Name
    } else {
        Place::Part(a.value)
    };
    Seen {
        included: a.included,
        id: a.id,
        data_type: a.data_type,
        issuer: a.issuer,
        value,
    }
}

// A node's resource shows no scope.
fn hidden(a: Attribute, node: bool) -> bool
    ensures { result ≡ is_hidden node a }
{
    node && a.id == SCOPE
}

pub(crate) fn shown_count(attributes: &[Attribute], node: bool) -> usize
    ensures { result ≡ length (shown node attributes.now) }
{
    attributes.iter().filter(|a| !hidden(**a, node)).count()
}

pub(crate) fn shown_at(attributes: &[Attribute], node: bool, number: usize) -> Option<Seen>
    ensures { result ≡ nth (shown node attributes.now) number }
{
    let a = attributes
        .iter()
        .filter(|a| !hidden(**a, node))
        .nth(number)?;
    Some(seen(*a, node))
}
