ghost use Rattle.std.specs.Prelude.{◌≡◌, ◌≤◌, List, map, length, Some, None};
ghost use Rattle.std.specs.Option.{option_map};
ghost use Rattle.model.specs.Rows.{Listed, single_request};
ghost use Rattle.model.specs.Tree.{Tree as Meaning};
ghost use Rattle.request.specs.Place.{content_of};
ghost use Rattle.single.specs.Numbers.{past, all_at};
ghost use Rattle.single.specs.Single.{chosen_of, content};
ghost use Rattle.expansion.specs.Few.{held};
ghost use Rattle.expansion.specs.Listed.{listed_of};
ghost use Rattle.expansion.specs.Put.{element_of, at_node};

use crate::few::Few;
use request::request::Request;
use single::single::SingleRequest;
use tree::Tree;

// The single request of chosen elements as they stand; none where a number names no element.
pub fn put<'r, 'a>(request: &'r Request<'a>, chosen: &Few) -> Option<SingleRequest<'r, 'a, 'a>>
    ensures numbers { option_map chosen_of result ≡ all_at (content_of request.now).elements (held chosen.now) }
    ensures elements { past (held chosen.now) ≤ length (content_of request.now).elements → option_map chosen_of result ≡ Some (map element_of (listed_of (content_of request.now).elements (held chosen.now))) }
    ensures content { (tree : Meaning) → past (held chosen.now) ≤ length (content_of request.now).elements → option_map content result ≡ Some (single_request tree None (listed_of (content_of request.now).elements (held chosen.now))) }
{
    SingleRequest::new(request, chosen.numbers, chosen.count)
}

// The same elements for a node; none past the tree's last node.
pub fn put_at<'r, 'a, 'm, T: Tree>(
    single: &SingleRequest<'r, 'a, 'a>,
    tree: &'m T,
    node: usize,
) -> Option<SingleRequest<'r, 'a, 'm>>
    ensures { (ls : List Listed) → chosen_of single.now ≡ map element_of ls → option_map content result ≡ at_node (T.meaning tree.now) node ls }
{
    let name = tree.name(node)?;
    Some(single.at(name))
}

// The same for a node that was reached; past the last node, which no reached one is, the name is empty.
pub fn put_reached<'r, 'a, 'm, T: Tree>(
    single: &SingleRequest<'r, 'a, 'a>,
    tree: &'m T,
    node: usize,
) -> SingleRequest<'r, 'a, 'm>
    ensures { (ls : List Listed) → chosen_of single.now ≡ map element_of ls → content result ≡ single_request (T.meaning tree.now) (Some node) ls }
{
    single.at(tree.name(node).unwrap_or(&[]))
}
