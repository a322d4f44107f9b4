// Reads the two files.
use crate::problem::{Fault, Problem};
use answers::log::Log;
use answers::table::Table;
use answers::table::makes::TableFault;
use formats::{AnswerLine, LineFault, RowLine, Token};
use std::alloc::{AllocError, Global};
use std::fs;

// The line of a row, and the word that it names.
#[derive(Drop)]
pub struct NamedRow {
    pub line: usize,
    pub word: Option<Vec<u32>>,
}

#[derive(Drop)]
pub struct TableFile {
    pub table: Table,
    pub rows: Vec<NamedRow>,
}

// Answers, and the line of each; a log has no place for lines.
#[derive(Drop)]
pub struct AnswerFile {
    pub log: Log,
    pub lines: Vec<usize>,
}

// A file that is read, line by line. Lines are counted from 1.
#[derive(Clone, Copy)]
struct Source<'a> {
    heap: Global,
    path: &'a str,
}

impl Source<'_> {
    fn problem(&self, line: usize, fault: Fault) -> Problem {
        match String::from_str(self.heap, self.path) {
            Ok(path) => Problem::Line { path, line, fault },
            Err(e) => Problem::Memory(e),
        }
    }

    // Refuses a word with a key that the table does not have.
    fn known_keys(&self, line: usize, word: &[u32], keys: usize) -> Result<(), Problem> {
        match word.iter().find(|key| **key as usize >= keys) {
            Some(key) => Err(self.problem(line, Fault::OtherKey { key: *key, keys })),
            None => Ok(()),
        }
    }

    fn read(&self, rt: &HostRuntime) -> Result<Vec<u8>, Problem> {
        match fs::read(rt, self.path) {
            Ok(bytes) => Ok(bytes),
            Err(e) => Err(Problem::Unread(String::from_str(self.heap, self.path)?, e)),
        }
    }

    // Reads each line that is not blank by `parse` and gives it to `take`, until one is bad.
    fn each_line<
        T,
        P: Fn(&[Token]) -> Result<T, LineFault>,
        F: FnMut(usize, T) -> Result<(), Problem>,
    >(&self, rt: &HostRuntime, parse: P, mut take: F) -> Result<(), Problem>
        requires parses { P.IsAlwaysCallable parse }
        requires takes { F.IsAlwaysCallable take }
    {
        let bytes = self.read(rt)?;
        for (i, text) in bytes.as_slice().split(|b| *b == b'\n').enumerate() {
            let line = i + 1;
            let bad = |fault: LineFault| self.problem(line, Fault::Format(fault));
            let tokens = formats::tokens(self.heap, text).map_err(bad)?;
            if !tokens.is_empty() {
                let read = parse(tokens.as_slice()).map_err(bad)?;
                take(line, read)?;
            }
        }
        Ok(())
    }
}

// What is wrong with the rows of a table, and in which line.
fn bad_table(
    source: &Source<'_>,
    numbers: &[Vec<u32>],
    rows: &[NamedRow],
    fault: TableFault,
) -> Result<Problem, AllocError> {
    let (row, fault) = match fault {
        TableFault::NoRows => {
            let path = String::from_str(source.heap, source.path)?;
            return Ok(Problem::NoRows(path));
        }
        TableFault::ManyRows(count) => (0, Fault::ManyRows(count)),
        TableFault::NoKeys => (0, Fault::NoKeys),
        TableFault::ManyKeys(count) => (0, Fault::ManyKeys(count)),
        TableFault::Uneven(row) => {
            let width = numbers.first().map_or(0, |first| first.len());
            (row.0, Fault::Uneven { width })
        }
        TableFault::NoSuchRow(row, key) => {
            let rows = numbers.len();
            (row.0, Fault::NoSuchRow { key: key.0, rows })
        }
        TableFault::Memory => return Ok(Problem::Memory(AllocError)),
    };
    let line = rows.get(row).map_or(0, |row| row.line);
    Ok(source.problem(line, fault))
}

fn named_words_known(source: &Source<'_>, rows: &[NamedRow], keys: usize) -> Result<(), Problem> {
    for row in rows {
        if let Some(word) = &row.word {
            source.known_keys(row.line, word.as_slice(), keys)?;
        }
    }
    Ok(())
}

pub fn read_table(rt: &HostRuntime, path: &str) -> Result<TableFile, Problem> {
    let heap = rt.alloc();
    let source = Source { heap, path };
    // Apart from the rows' lines and words, since a table is made of the numbers alone.
    let mut numbers = Vec::new(heap);
    let mut rows = Vec::new(heap);
    source.each_line(
        rt,
        |tokens| formats::row_line(heap, tokens),
        |line, row| {
            let RowLine {
                numbers: shown,
                word,
            } = row;
            numbers.push(shown)?;
            rows.push(NamedRow { line, word })?;
            Ok(())
        },
    )?;
    match Table::from_rows(heap, numbers.as_slice()) {
        Ok(table) => {
            named_words_known(&source, rows.as_slice(), table.keys())?;
            Ok(TableFile { table, rows })
        }
        Err(fault) => Err(bad_table(&source, numbers.as_slice(), rows.as_slice(), fault)?),
    }
}

pub fn read_answers(rt: &HostRuntime, path: &str, keys: usize) -> Result<AnswerFile, Problem> {
    let heap = rt.alloc();
    let source = Source { heap, path };
    let mut log = Log::new(heap);
    let mut lines = Vec::new(heap);
    source.each_line(
        rt,
        |tokens| formats::answer_line(heap, tokens),
        |line, answer| {
            let AnswerLine { word, shown } = answer;
            source.known_keys(line, word.as_slice(), keys)?;
            log.add(word, shown)?;
            lines.push(line)?;
            Ok(())
        },
    )?;
    Ok(AnswerFile { log, lines })
}
