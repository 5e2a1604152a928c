ghost use Rattle.std.specs.Prelude.{◌≡◌};
ghost use Rattle.model.specs.Lists.{keep};
ghost use Rattle.model.specs.Rows.{scope as scope_by_attributes};
ghost use Rattle.tree.specs.Reached.{extent_of};
ghost use Rattle.request.specs.Place.{bytes_of, content_of};
ghost use Rattle.single.specs.declared.only.Only.TheVariants.{Missing};
ghost use Rattle.single.specs.Numbers.{numbered};
ghost use Rattle.single.specs.Only.{and_these};
ghost use Rattle.expansion.specs.Asked.{scope_of, with_code, asked_only, asked_by};

use crate::asked::Exploration;
use model::codes::{RESOURCE_ID, SCOPE, STRING};
use model::decision::Cause;
use request::content::Attribute;
use request::request::Request;
use single::only::Only;
use tree::Tree;
use tree::extent::Extent;

// The attribute of this id, if there is just one.
fn only_with(attributes: &[Attribute], id: u8) -> Only<Attribute>
    ensures { result ≡ and_these Missing (keep (with_code id) attributes.now) }
{
    let mut only = Only::Missing;
    for attribute in attributes {
        if attribute.id == id {
            only = only.and(*attribute);
        }
    }
    only
}

// From the node that the one resource-id names.
fn from_node<T: Tree>(
    request: &Request,
    extent: Extent,
    id: Only<Attribute>,
    tree: &T,
) -> Result<Option<Exploration>, Cause>
    ensures { scope_of result ≡ asked_only (T.meaning tree.now) (bytes_of request.now) (extent_of extent) id }
{
    let Only::One(id) = id else {
        return Err(Cause::NoSingleResourceId);
    };
    let node = tree.find(request.text(id.value)).ok_or(Cause::UnknownNode)?;
    Ok(Some(Exploration { extent, node }))
}

// What the one scope asks for. No `match` on the bytes: it was tried, and the proof knows only the length in an arm.
#[tactic(auto, using(crate::proofs::Scoped::bytes_same))]
fn by_scope<T: Tree>(
    request: &Request,
    scope: Attribute,
    id: Only<Attribute>,
    tree: &T,
) -> Result<Option<Exploration>, Cause>
    ensures { scope_of result ≡ asked_by (T.meaning tree.now) (bytes_of request.now) id scope }
{
    if scope.data_type != STRING {
        return Err(Cause::BadScope);
    }
    let value = request.text(scope.value);
    if value == b"Immediate".as_slice() {
        return Ok(None);
    }
    if value == b"Children".as_slice() {
        return from_node(request, Extent::Children, id, tree);
    }
    if value == b"Descendants".as_slice() {
        return from_node(request, Extent::Descendants, id, tree);
    }
    Err(Cause::BadScope)
}

// What the resource element of this number asks for: nothing below it, or what is reached from a node.
pub fn scope<T: Tree>(
    request: &Request,
    element: usize,
    tree: &T,
) -> Result<Option<Exploration>, Cause>
    ensures { scope_of result ≡ scope_by_attributes (T.meaning tree.now) (numbered (content_of request.now).elements element) }
{
    let attributes = request.attributes(element);
    let id = only_with(attributes, RESOURCE_ID);
    match only_with(attributes, SCOPE) {
        Only::Missing => Ok(None),
        Only::Several => Err(Cause::SeveralScopes),
        Only::One(scope) => by_scope(request, scope, id, tree),
    }
}
