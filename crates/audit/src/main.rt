// Says whether a table is borne out by the presses that were made, and if not, what is missing.
#![tactic(auto)]

mod faults;
mod files;
mod problem;
mod show;

use crate::problem::Problem;
use std::io;
use std::process::ExitCode;

const HELP: &str = "audit TABLE ANSWERS

Says whether a table is borne out by the answers that a box gave.

TABLE    a line for each row: what it shows, then the row that each key leads
         to, with blanks between. The first line is row 0, which begins.
         A line may end with '@' and a word that was told of, for the row:
             0 0 1
             9 1 0 @ 1
ANSWERS  a line for each answer: the keys, ':', and what the box showed then:
             : 0
             1 : 9
             1 0 : 9
In both, '#' starts a comment and blank lines are skipped.

A table is borne out if it agrees with every answer; if each row has a word
that leads to it and was told of, row 0 the empty word; if any two of these
words are told apart, that is, with some word behind both, two different
things were told; and if each row's word with a key behind it is told apart
from the word of every row but the one that the key leads to.

The last line printed begins with 'borne out' or 'not borne out'.";

fn help(rt: &HostRuntime) -> io::Result<()> {
    println!(rt; "{HELP}")
}

fn audit(rt: &HostRuntime, table: &str, answers: &str) -> Result<(), Problem> {
    let tables = files::read_table(rt, table)?;
    let told = files::read_answers(rt, answers, tables.table.keys())?;
    show::all(rt, &tables, &told)
}

fn run(rt: &HostRuntime) -> Result<(), Problem> {
    let paths = console::arguments(rt)?;
    match paths.as_slice() {
        [] => Ok(help(rt)?),
        [word] if word.as_str() == "--help" => Ok(help(rt)?),
        [table, answers] => audit(rt, table.as_str(), answers.as_str()),
        _ => Err(Problem::Usage),
    }
}

fn main(rt: HostRuntime) -> Result<ExitCode, Problem> {
    Ok(console::status(&rt, "audit", run(&rt))?)
}
