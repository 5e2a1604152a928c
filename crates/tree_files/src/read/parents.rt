ghost use Rattle.std.specs.Prelude.{◌≡◌, ◌≤◌, true, length, vec_len, vec_capacity};
ghost use Rattle.std.specs.Option.{option_map};
ghost use Rattle.model.specs.TreeFiles.{hollow};
ghost use Rattle.tree_files.specs.Links.{Ends};
ghost use Rattle.tree_files.specs.Segments.{LastSeparator, Parent, ParentNode, LinkedBelow};
ghost use Rattle.tree_files.specs.Texts.{texts_in};

use crate::names::Names;
use wire::span::part;

pub(crate) fn has_empty_segment(path: &[u8]) -> bool
    ensures { result ≡ hollow true path.now }
{
    path.split(|byte| *byte == b'/')
        .any(|segment| segment.is_empty())
}

fn last_separator(path: &[u8]) -> Option<usize>
    ensures { LastSeparator path.now (length path.now) result }
{
    path.iter().rposition(|byte| *byte == b'/')
}

// The path without its last segment and the separator before it.
fn parent_path(path: &[u8]) -> Option<&[u8]>
    ensures { Parent path.now (option_map (λ x. x.now) result) }
{
    let place = last_separator(path)?;
    if place + 1 < path.len() {
        Some(&path[..place])
    } else {
        None
    }
}

fn parent_node(names: &Names<'_>, path: &[u8]) -> Option<usize>
    ensures { ParentNode (texts_in names.now) path.now result }
{
    names.find(parent_path(path)?)
}

// The links of a path tree, one for each path whose parent is a node: a search for each.
pub(crate) fn link_paths(names: &Names<'_>, links: &mut Vec<(usize, usize)>)
    requires empty { vec_len links.old ≡ 0 }
    requires room { length (texts_in names.now) ≤ vec_capacity links.old }
    ensures linked { LinkedBelow (texts_in names.now) links.new.items (length (texts_in names.now)) }
    ensures ends { Ends (length (texts_in names.now)) links.new.items }
    ensures room { vec_capacity links.new ≡ vec_capacity links.old }
{
    for (child, name) in names.spans.iter().enumerate() {
        let path = part(names.bytes, *name);
        if let Some(parent) = parent_node(names, path) {
            links.push_reserved((parent, child));
        }
    }
}
