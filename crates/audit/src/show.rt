// Prints what was found, and the verdict.
use crate::faults::Printer;
use crate::files::{AnswerFile, TableFile};
use crate::problem::Problem;
use answers::log::Answer;
use formats::Word;
use std::alloc::{AllocError, Global};
use verdicts::report::Report;
use verdicts::{choice, greedy, report};

// At most so many of each kind are printed.
const MOST: usize = 20;

// The word for a row: the one that its line names, else the one that was chosen.
fn word_for(
    heap: Global,
    named: &Option<Vec<u32>>,
    chosen: Option<&Answer>,
) -> Result<Vec<u32>, AllocError> {
    match (named, chosen) {
        (Some(word), _) => word.clone(),
        (None, Some(answer)) => answer.word.clone(),
        (None, None) => Ok(Vec::new(heap)),
    }
}

// A word for each row.
fn all_words(
    rt: &HostRuntime,
    tables: &TableFile,
    answers: &[Answer],
) -> Result<Vec<Vec<u32>>, Problem> {
    let heap = rt.alloc();
    let chosen = choice::row_words(heap, &tables.table, answers)?;
    let mut words = Vec::new(heap);
    for (i, (row, pick)) in tables.rows.iter().zip(&chosen).enumerate() {
        let pick = pick.and_then(|answer| answers.get(answer));
        let word = word_for(heap, &row.word, pick)?;
        let shown = Word(word.as_slice());
        match (&row.word, pick) {
            (Some(_), _) => println!(rt; "row {i}: word {shown}")?,
            (None, Some(_)) => println!(rt; "row {i}: word {shown} (chosen)")?,
            (None, None) => println!(rt;
                "row {i}: no word, since none that was told of leads to it"
            )?,
        }
        words.push(word)?;
    }
    Ok(words)
}

impl Printer<'_> {
    // Says so if the answers tell more words apart than the table has rows.
    fn too_few_states(&self) -> Result<(), Problem> {
        let answers = self.told.log.answers();
        let apart = greedy::apart_words(self.rt.alloc(), answers)?;
        let count = apart.len();
        let rows = self.table.rows();
        if count <= rows {
            return Ok(());
        }
        println!(self.rt;
            "too few states: any box that gave these answers has at least {count}, the table has {rows}; any two of these words are told apart:"
        )?;
        for i in apart.iter().take(MOST) {
            if let Some(answer) = answers.get(*i) {
                let word = Word(answer.word.as_slice());
                let line = self.line(*i);
                println!(self.rt; "  {word}   (line {line})")?;
            }
        }
        self.rest(count, MOST)
    }

    fn last_line(&self, report: &Report) -> Result<(), Problem> {
        let rows = self.table.rows();
        let answers = self.told.log.answers().len();
        match report.verdict() {
            None => println!(self.rt; "borne out: {rows} rows by {answers} answers")?,
            Some(_) => {
                let conflicts = report.conflicts.count;
                let wrong = report.wrong.count;
                let words = report.words.count;
                let pairs = report.pairs.count;
                let edges = report.edges.count;
                println!(self.rt;
                    "not borne out: contradictions {conflicts}, wrong answers {wrong}, rows without a fit word {words}, pairs of rows not told apart {pairs}, keys not told apart {edges}"
                )?;
            }
        }
        Ok(())
    }
}

pub fn all(rt: &HostRuntime, tables: &TableFile, told: &AnswerFile) -> Result<(), Problem> {
    let answers = told.log.answers();
    let words = all_words(rt, tables, answers)?;
    let report = report::examine(rt.alloc(), &tables.table, words.as_slice(), answers, MOST)?;
    let printer = Printer {
        rt,
        table: &tables.table,
        words: words.as_slice(),
        told,
    };
    printer.faults(&report)?;
    printer.too_few_states()?;
    printer.last_line(&report)
}
