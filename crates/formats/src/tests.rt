// Good and bad lines, and what is said of them.
use super::*;
use std::alloc::{AllocError, Global};
use std::test::Fail;

fn answer(heap: Global, line: &str) -> Result<AnswerLine, LineFault> {
    let tokens = tokens(heap, line.as_bytes())?;
    answer_line(heap, tokens.as_slice())
}

fn row(heap: Global, line: &str) -> Result<RowLine, LineFault> {
    let tokens = tokens(heap, line.as_bytes())?;
    row_line(heap, tokens.as_slice())
}

fn answer_text(heap: Global, line: &str) -> Result<String, AllocError> {
    match answer(heap, line) {
        Ok(read) => {
            let word = read.word;
            let shown = read.shown;
            format!(in heap; "{word:?} {shown}")
        }
        Err(fault) => format!(in heap; "{fault}"),
    }
}

fn row_text(heap: Global, line: &str) -> Result<String, AllocError> {
    match row(heap, line) {
        Ok(read) => {
            let numbers = read.numbers;
            let word = read.word;
            format!(in heap; "{numbers:?} {word:?}")
        }
        Err(fault) => format!(in heap; "{fault}"),
    }
}

#[test]
fn answers(rt: HostRuntime) -> Result<(), Fail> {
    let heap = rt.alloc();
    let cases = [
        ("1 0 : 9", "[1, 0] 9"),
        (": 0", "[] 0"),
        ("\t1 0:09 # twice : once\r", "[1, 0] 9"),
        ("4294967295:1", "[4294967295] 1"),
        ("1 4294967296 : 1", "column 3: a number above 4294967295"),
        (
            "1 -0 : 9",
            "column 3: expected a digit, a blank, ':', '@' or '#'",
        ),
        ("1 0", "expected ':' and then what was shown"),
        ("1 0 :", "expected what was shown, a number, after ':'"),
        ("1 0 : 9 9", "expected one number after ':'"),
        (
            "1 @ 0 : 9",
            "expected keys, ':' and what was shown; '@' belongs to tables",
        ),
        ("1 : :", "expected one ':', and after it a number"),
    ];
    for (line, wanted) in cases {
        assert_eq!(rt; answer_text(heap, line)?.as_str(), wanted);
    }
    Ok(())
}

#[test]
fn rows(rt: HostRuntime) -> Result<(), Fail> {
    let heap = rt.alloc();
    let cases = [
        ("9 1 0", "[9, 1, 0] None"),
        ("9 1 0 @ 1", "[9, 1, 0] Some([1])"),
        ("9@", "[9] Some([])"),
        ("# no row", "expected what the row shows, a number, first"),
        ("@ 1", "expected what the row shows, a number, first"),
        (
            "9 1 : 0",
            "expected numbers and then perhaps '@' and a word; ':' belongs to answers",
        ),
        ("9 1 @ 1 @", "expected one '@' at most, and after it a word"),
    ];
    for (line, wanted) in cases {
        assert_eq!(rt; row_text(heap, line)?.as_str(), wanted);
    }
    Ok(())
}

#[test]
fn words(rt: HostRuntime) -> Result<(), Fail> {
    let heap = rt.alloc();
    let cases: [(&[u32], &str, &str); 3] = [
        (&[], "", "(empty)"),
        (&[0], "0", "0"),
        (&[12, 0, 4294967295], "12 0 4294967295", "12 0 4294967295"),
    ];
    for (keys, numbers, word) in cases {
        assert_eq!(rt; Numbers(keys).to_string(heap)?.as_str(), numbers);
        assert_eq!(rt; Word(keys).to_string(heap)?.as_str(), word);
    }
    Ok(())
}
