use crate::session::Session;
use commandline::command::{Files, PointKind, Task, TreeKind};
use decision::point::DecisionPoint;
use grants::grants::Grants;
use inspect::file::File;
use inspect::opened::Opened;
use report::console::Console;
use report::failed::Failed;
use rule_policy::policy::RulePolicy;
use tree::Tree;
use tree_files::linked::LinkedTree;
use tree_files::paths::PathTree;

// The files of an enquiry, and what is to be done with it.
#[derive(Clone, Copy)]
struct Asked<'s> {
    console: Console<'s>,
    files: &'s Files,
    task: Task,
}

// Opens the tree, then the decision point, then the request; the first that is refused is told.
pub(crate) fn enquire(console: Console<'_>, files: &Files, task: Task) -> Result<(), Failed> {
    let asked = Asked {
        console,
        files,
        task,
    };
    let tree = File::read(console.rt, files.tree.file.as_str())?;
    match files.tree.kind {
        TreeKind::Linked => over::<LinkedTree<'_>>(asked, &tree),
        TreeKind::Paths => over::<PathTree<'_>>(asked, &tree),
    }
}

fn over<'a, T: Opened<'a> + Tree>(asked: Asked<'_>, tree: &'a File<'_>) -> Result<(), Failed> {
    let tree: T = tree.open(asked.console)?;
    let point = File::read(asked.console.rt, asked.files.point.file.as_str())?;
    match asked.files.point.kind {
        PointKind::Rules => by::<T, RulePolicy<'_>>(asked, &tree, &point),
        PointKind::Grants => by::<T, Grants<'_>>(asked, &tree, &point),
    }
}

fn by<'a, T: Tree, P: Opened<'a> + DecisionPoint>(
    asked: Asked<'_>,
    tree: &T,
    point: &'a File<'_>,
) -> Result<(), Failed> {
    let point: P = point.open(asked.console)?;
    let request = File::read(asked.console.rt, asked.files.request.as_str())?;
    let mut session = Session::open(asked.console, &request, tree, &point)?;
    match asked.task {
        Task::Rows => session.rows(),
        Task::Singles => session.singles(),
        Task::Work => session.work(),
    }
}
