use crate::command::{Misuse, PointKind, Source, TreeKind};
use std::env::Args;

// The words after a command: one that is no option, and options in any order.
#[derive(Debug, Default, PartialEq, Drop)]
pub(crate) struct Options {
    pub(crate) operand: Option<String>,
    pub(crate) tree: Option<Source<TreeKind>>,
    pub(crate) point: Option<Source<PointKind>>,
    pub(crate) children: bool,
    pub(crate) tsv: bool,
}

// What is named once, by a file of one kind or another.
trait Once: Drop {
    const WHAT: &'static str;
}

impl Once for TreeKind {
    const WHAT: &'static str = "a tree";
}

impl Once for PointKind {
    const WHAT: &'static str = "a decision point";
}

impl Options {
    // An option that names a file has it in the next word.
    pub(crate) fn parse(mut words: Args) -> Result<Options, Misuse> {
        let mut options = Options::default();
        while let Some(word) = words.next() {
            match word.as_str() {
                "--tsv" => options.tsv = true,
                "--children" => options.children = true,
                "--linked" => take_source(&mut options.tree, TreeKind::Linked, words.next())?,
                "--paths" => take_source(&mut options.tree, TreeKind::Paths, words.next())?,
                "--rules" => take_source(&mut options.point, PointKind::Rules, words.next())?,
                "--grants" => take_source(&mut options.point, PointKind::Grants, words.next())?,
                _ => take_operand(&mut options.operand, word)?,
            }
        }
        Ok(options)
    }
}

// Keeps the file that the word after an option names.
fn take_source<K: Once>(
    place: &mut Option<Source<K>>,
    kind: K,
    next: Option<String>,
) -> Result<(), Misuse> {
    let file = next.ok_or(Misuse::Missing("the file after the last option"))?;
    if file.starts_with("--") {
        return Err(Misuse::Missing("the file after an option"));
    }
    if place.is_some() {
        return Err(Misuse::Twice(K::WHAT));
    }
    *place = Some(Source { kind, file });
    Ok(())
}

fn take_operand(operand: &mut Option<String>, word: String) -> Result<(), Misuse> {
    if word.starts_with("--") || operand.is_some() {
        return Err(Misuse::Unknown(word));
    }
    *operand = Some(word);
    Ok(())
}
