use crate::file::File;
use crate::opened::Opened;
use commandline::command::{Kind, PointKind, Source, TreeKind};
use grants::grants::Grants;
use report::console::Console;
use report::failed::Failed;
use request::request::Request;
use rule_policy::policy::RulePolicy;
use tree_files::linked::LinkedTree;
use tree_files::paths::PathTree;

// Opens a file and prints what happened.
pub fn check(console: Console<'_>, source: &Source<Kind>) -> Result<(), Failed> {
    let file = File::read(console.rt, source.file.as_str())?;
    match source.kind {
        Kind::Request => tell::<Request<'_>>(console, &file),
        Kind::Tree(TreeKind::Linked) => tell::<LinkedTree<'_>>(console, &file),
        Kind::Tree(TreeKind::Paths) => tell::<PathTree<'_>>(console, &file),
        Kind::Point(PointKind::Rules) => tell::<RulePolicy<'_>>(console, &file),
        Kind::Point(PointKind::Grants) => tell::<Grants<'_>>(console, &file),
    }
}

fn tell<'a, O: Opened<'a>>(console: Console<'_>, file: &'a File<'_>) -> Result<(), Failed> {
    let opened: O = file.open(console)?;
    console.print_accepted(file.name, file.bytes().len())?;
    if !console.tsv {
        opened.print(console.rt)?;
    }
    Ok(())
}
