#![tactic(auto)]

mod calls;
mod enquire;
mod help;
mod line;
mod rows;
mod session;
mod singles;
mod table;
mod tally;
mod work;

use commandline::command::Command;
use commandline::parse::parse;
use enquire::enquire;
use help::{HELP, VERSION};
use inspect::below::below;
use inspect::check::check;
use inspect::decide::decide;
use report::console::Console;
use report::failed::Failed;
use std::env;
use std::process::ExitCode;

fn run(rt: &HostRuntime, command: &Command) -> Result<(), Failed> {
    let console = |tsv: &bool| Console { rt, tsv: *tsv };
    match command {
        Command::Help => Ok(rt.print(HELP)?),
        Command::Version => Ok(rt.println(VERSION)?),
        Command::Check { source, tsv } => check(console(tsv), source),
        Command::Below {
            name,
            tree,
            children,
            tsv,
        } => below(console(tsv), name.as_str(), tree, *children),
        Command::Decide {
            request,
            point,
            tsv,
        } => decide(console(tsv), request.as_str(), point),
        Command::Enquire { task, files, tsv } => enquire(console(tsv), files, *task),
    }
}

// Reads the words and does what they ask for.
fn obey(rt: &HostRuntime) -> Result<(), Failed> {
    let mut words = env::args(rt)?;
    let _program = words.next();
    match parse(words) {
        Ok(command) => run(rt, &command),
        Err(misuse) => {
            eprintln!(rt; "vamluyak: {misuse}; vamluyak --help says how it is used")?;
            Err(Failed)
        }
    }
}

// What there is to say has been printed: a failure adds only the status.
fn main(rt: HostRuntime) -> ExitCode {
    match obey(&rt) {
        Ok(()) => ExitCode::SUCCESS,
        Err(Failed) => ExitCode::FAILURE,
    }
}
