use crate::command::{Command, Files, Misuse, Source, Task};
use crate::options::Options;
use std::env::Args;

const TREE: &str = "--linked FILE or --paths FILE";

const POINT: &str = "--rules FILE or --grants FILE";

// The words after the program's name.
pub fn parse(mut words: Args) -> Result<Command, Misuse> {
    let command = words.next().ok_or(Misuse::Missing("a command"))?;
    match command.as_str() {
        "--help" => alone(words, Command::Help),
        "--version" => alone(words, Command::Version),
        "check" => parse_check(words),
        "below" => parse_below(words),
        "decide" => parse_decide(words),
        "rows" => parse_enquire(words, Task::Rows),
        "singles" => parse_enquire(words, Task::Singles),
        "work" => parse_enquire(words, Task::Work),
        _ => Err(Misuse::Unknown(command)),
    }
}

// A command that takes no words.
fn alone(mut words: Args, command: Command) -> Result<Command, Misuse> {
    match words.next() {
        Some(word) => Err(Misuse::Unknown(word)),
        None => Ok(command),
    }
}

fn parse_check(mut words: Args) -> Result<Command, Misuse> {
    let word = words.next().ok_or(Misuse::Missing("the kind of file"))?;
    let Ok(kind) = word.parse() else {
        return Err(Misuse::Unknown(word));
    };
    let Options {
        operand,
        tree,
        point,
        children,
        tsv,
    } = Options::parse(words)?;
    if tree.is_some() || point.is_some() || children {
        return Err(Misuse::Needless("check takes no option but --tsv"));
    }
    let file = operand.ok_or(Misuse::Missing("the file"))?;
    let source = Source { kind, file };
    Ok(Command::Check { source, tsv })
}

fn parse_below(words: Args) -> Result<Command, Misuse> {
    let Options {
        operand,
        tree,
        point,
        children,
        tsv,
    } = Options::parse(words)?;
    if point.is_some() {
        return Err(Misuse::Needless("below takes no decision point"));
    }
    Ok(Command::Below {
        name: operand.ok_or(Misuse::Missing("the name of a node"))?,
        tree: tree.ok_or(Misuse::Missing(TREE))?,
        children,
        tsv,
    })
}

fn parse_decide(words: Args) -> Result<Command, Misuse> {
    let Options {
        operand,
        tree,
        point,
        children,
        tsv,
    } = Options::parse(words)?;
    if tree.is_some() || children {
        return Err(Misuse::Needless("decide takes no tree and no --children"));
    }
    Ok(Command::Decide {
        request: operand.ok_or(Misuse::Missing("the request"))?,
        point: point.ok_or(Misuse::Missing(POINT))?,
        tsv,
    })
}

fn parse_enquire(words: Args, task: Task) -> Result<Command, Misuse> {
    let Options {
        operand,
        tree,
        point,
        children,
        tsv,
    } = Options::parse(words)?;
    if children {
        return Err(Misuse::Needless("only below takes --children"));
    }
    let files = Files {
        request: operand.ok_or(Misuse::Missing("the request"))?,
        tree: tree.ok_or(Misuse::Missing(TREE))?,
        point: point.ok_or(Misuse::Missing(POINT))?,
    };
    Ok(Command::Enquire { task, files, tsv })
}
