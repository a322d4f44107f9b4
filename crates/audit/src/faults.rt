// Prints each thing that is missing, with what shows it.
use crate::files::AnswerFile;
use crate::problem::Problem;
use answers::table::{Key, Row, Table};
use formats::Word;
use verdicts::listing::Listing;
use verdicts::report::Report;
use verdicts::words;
use verdicts::words::WordFault;

// Prints what is found of a table, with a word for each row, and the answers.
#[derive(Clone, Copy)]
pub struct Printer<'a> {
    pub rt: &'a HostRuntime,
    pub table: &'a Table,
    pub words: &'a [Vec<u32>],
    pub told: &'a AnswerFile,
}

impl Printer<'_> {
    // The line of an answer in its file.
    pub fn line(&self, answer: usize) -> usize {
        self.told.lines.get(answer).copied().unwrap_or(0)
    }

    fn word(&self, row: Row) -> Word<'_> {
        self.words
            .get(row.0)
            .map_or(Word(&[]), |word| Word(word.as_slice()))
    }

    // How many more there are than were printed.
    pub fn rest(&self, count: usize, shown: usize) -> Result<(), Problem> {
        if count > shown {
            let more = count - shown;
            println!(self.rt; "  and {more} more")?;
        }
        Ok(())
    }

    // A heading, what is listed, each thing on a line of its own, and how many more there are.
    fn list<T: Copy, F: Fn(T) -> Result<(), Problem>>(
        &self,
        heading: &str,
        listing: &Listing<T>,
        print: F,
    ) -> Result<(), Problem>
        requires { F.IsAlwaysCallable print }
    {
        if listing.count > 0 {
            println!(self.rt; "{heading}")?;
        }
        for thing in listing.first.iter().copied() {
            print(thing)?;
        }
        self.rest(listing.count, listing.first.len())
    }

    fn conflict(&self, i: usize) -> Result<(), Problem> {
        let answers = self.told.log.answers();
        let Some(answer) = answers.get(i) else {
            return Ok(());
        };
        let Some(first) = words::first_answer(answers, answer.word.as_slice()) else {
            return Ok(());
        };
        if let Some(earlier) = answers.get(first) {
            let word = Word(answer.word.as_slice());
            let shown = answer.shown;
            let here = self.line(i);
            let before = earlier.shown;
            let there = self.line(first);
            println!(self.rt;
                "  line {here}: after {word} the box showed {shown}, but by line {there} it showed {before}"
            )?;
        }
        Ok(())
    }

    fn wrong(&self, i: usize) -> Result<(), Problem> {
        let Some(answer) = self.told.log.answers().get(i) else {
            return Ok(());
        };
        if let Some(by_table) = self.table.shows(answer.word.as_slice()) {
            let word = Word(answer.word.as_slice());
            let shown = answer.shown;
            let here = self.line(i);
            println!(self.rt;
                "  line {here}: after {word} the box showed {shown}, the table shows {by_table}"
            )?;
        }
        Ok(())
    }

    fn unfit(&self, row: Row) -> Result<(), Problem> {
        let word = self.word(row);
        let Some(fault) = words::word_fault(self.table, self.told.log.answers(), row, word.0) else {
            return Ok(());
        };
        let row = row.0;
        match fault {
            WordFault::NotEmpty => println!(self.rt;
                "  row {row}: expected the empty word, not {word}"
            )?,
            WordFault::OtherKeys => println!(self.rt;
                "  row {row}: the word {word} has other keys"
            )?,
            WordFault::LeadsTo(Row(led)) => println!(self.rt;
                "  row {row}: the word {word} leads to row {led}"
            )?,
            WordFault::NotTold => println!(self.rt;
                "  row {row}: the word {word} was never told of"
            )?,
        }
        Ok(())
    }

    fn pair(&self, one: Row, other: Row) -> Result<(), Problem> {
        let u = self.word(one);
        let v = self.word(other);
        let one = one.0;
        let other = other.0;
        println!(self.rt; "  rows {one} and {other}: nothing tells {u} and {v} apart")?;
        Ok(())
    }

    fn edge(&self, row: Row, key: Key, other: Row) -> Result<(), Problem> {
        let u = self.word(row);
        let v = self.word(other);
        if let Some(Row(to)) = self.table.next(row, key) {
            let row = row.0;
            let key = key.0;
            let other = other.0;
            println!(self.rt;
                "  row {row}, key {key}, which leads to row {to}: nothing tells {u} with {key} behind it from row {other}, {v}"
            )?;
        }
        Ok(())
    }

    // All that is missing.
    pub fn faults(&self, report: &Report) -> Result<(), Problem> {
        self.list(
            "contradictions (in what follows, the first answer to a word counts):",
            &report.conflicts,
            |i| self.conflict(i),
        )?;
        self.list("wrong answers:", &report.wrong, |i| self.wrong(i))?;
        self.list(
            "rows without a fit word:",
            &report.words,
            |row| self.unfit(row),
        )?;
        self.list(
            "rows that are not told apart:",
            &report.pairs,
            |(one, other)| { self.pair(one, other) },
        )?;
        self.list(
            "keys that are not told apart from another row:",
            &report.edges,
            |(row, key, other)| self.edge(row, key, other),
        )
    }
}
