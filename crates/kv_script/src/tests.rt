//! What no clause says: that the lines of the definitions are those that are meant.
use crate::{Line, LineFault, read_line};
use std::alloc::Global;
use std::test::Fail;

// What is told of a row.

const COMMENT: u16 = 0;

const CHAIN: u16 = 1;

const AT: u16 = 2;

const FEED: u16 = 3;

const DELIVER: u16 = 4;

const ALL: u16 = 5;

const TICK: u16 = 6;

const FLUSH: u16 = 7;

const CLEAN: u16 = 8;

const FENCE: u16 = 9;

const STRICT: u16 = 10;

const WEAK: u16 = 11;

const FUSE: u16 = 12;

const FAIL: u16 = 13;

const CRASH: u16 = 14;

const OPEN: u16 = 15;

const BAD: u16 = 16;

const NO_MEMORY: u16 = 17;

/// Which line it is, its copy's name, and its number: of a chain how many places it has, of bytes
/// their connection.
fn told_of(line: &Line) -> (u16, &[u8], u64) {
    match line {
        Line::Comment => (COMMENT, &[], 0),
        Line::Chain { names } => (CHAIN, &[], names.len() as u64),
        Line::At { moment } => (AT, &[], *moment),
        Line::Feed {
            copy,
            connection,
            ..
        } => (FEED, copy.as_slice(), u64::from(*connection)),
        Line::Deliver { message } => (DELIVER, &[], *message),
        Line::All => (ALL, &[], 0),
        Line::Tick { copy } => (TICK, copy.as_slice(), 0),
        Line::Flush { copy } => (FLUSH, copy.as_slice(), 0),
        Line::Clean { copy, most } => (CLEAN, copy.as_slice(), *most),
        Line::Fence { copy, term } => (FENCE, copy.as_slice(), *term),
        Line::Promote {
            copy,
            term,
            weak,
            ..
        } => (if *weak { WEAK } else { STRICT }, copy.as_slice(), *term),
        Line::Fuse { copy, after } => (FUSE, copy.as_slice(), *after),
        Line::Fail { copy, after } => (FAIL, copy.as_slice(), *after),
        Line::Crash { copy } => (CRASH, copy.as_slice(), 0),
        Line::OpenCopy { copy } => (OPEN, copy.as_slice(), 0),
    }
}

/// Whether this is told of a row.
fn is_told(alloc: Global, row: &str, wanted: (u16, &str, u64)) -> bool {
    match read_line(alloc, row.as_bytes()) {
        Ok(line) => {
            let (kind, copy, number) = told_of(&line);
            kind == wanted.0 && copy == wanted.1.as_bytes() && number == wanted.2
        }
        Err(LineFault::Bad) => wanted.0 == BAD,
        Err(LineFault::NoMemory) => wanted.0 == NO_MEMORY,
    }
}

/// The number of the first row of which something else is told.
fn first_wrong(alloc: Global, rows: &[(&str, (u16, &str, u64))]) -> Option<usize> {
    let mut number: usize = 0;
    for (row, wanted) in rows {
        if !is_told(alloc, row, *wanted) {
            return Some(number);
        }
        number = number.saturating_add(1);
    }
    None
}

/// The number of the first row that isn't bad.
fn first_good(alloc: Global, rows: &[&str]) -> Option<usize> {
    let mut number: usize = 0;
    for row in rows {
        if !is_told(alloc, row, (BAD, "", 0)) {
            return Some(number);
        }
        number = number.saturating_add(1);
    }
    None
}

#[test]
fn each_line_is_read_with_its_parts(rt: HostRuntime) {
    let rows: &[(&str, (u16, &str, u64))] = &[
        ("# a goes down", (COMMENT, "", 0)),
        ("#", (COMMENT, "", 0)),
        ("chain a b - c", (CHAIN, "", 4)),
        ("chain a", (CHAIN, "", 1)),
        ("at 1500", (AT, "", 1500)),
        ("at 0", (AT, "", 0)),
        ("feed a 0 80000004", (FEED, "a", 0)),
        ("feed b2 3 00", (FEED, "b2", 3)),
        ("deliver 12", (DELIVER, "", 12)),
        ("all", (ALL, "", 0)),
        ("tick a", (TICK, "a", 0)),
        ("flush a", (FLUSH, "a", 0)),
        ("clean a 4", (CLEAN, "a", 4)),
        ("clean a 1", (CLEAN, "a", 1)),
        ("fence b 5", (FENCE, "b", 5)),
        ("fence b 4", (FENCE, "b", 4)),
        ("promote b 5 strict 0 1", (STRICT, "b", 5)),
        ("promote b 5 weak 0", (WEAK, "b", 5)),
        ("promote b 0 weak 0", (WEAK, "b", 0)),
        ("fuse a 3", (FUSE, "a", 3)),
        ("fail a 3", (FAIL, "a", 3)),
        ("crash a", (CRASH, "a", 0)),
        ("open a", (OPEN, "a", 0)),
    ];
    assert_eq!(rt; first_wrong(rt.alloc(), rows), None);
}

#[test]
fn the_greatest_number_and_the_longest_name_are_read(rt: HostRuntime) {
    let rows: &[(&str, (u16, &str, u64))] = &[
        ("at 281474976710655", (AT, "", 281474976710655)),
        ("tick abcdefghijklm019", (TICK, "abcdefghijklm019", 0)),
        ("tick -", (BAD, "", 0)),
        ("at 281474976710656", (BAD, "", 0)),
        ("at 18446744073709551616", (BAD, "", 0)),
        ("tick abcdefghijklmnopq", (BAD, "", 0)),
    ];
    assert_eq!(rt; first_wrong(rt.alloc(), rows), None);
}

#[test]
fn words_have_one_space_between(rt: HostRuntime) {
    let rows: &[&str] = &[
        "", " ", "tick  a", "tick a ", " tick a", "all ", "tick\ta", "tick a\r",
    ];
    assert_eq!(rt; first_good(rt.alloc(), rows), None);
}

#[test]
fn first_words_are_those_of_the_table(rt: HostRuntime) {
    let rows: &[&str] = &[
        "ticks a",
        "Tick a",
        "tic a",
        "-",
        "a",
        "openCopy a",
        "close a",
    ];
    assert_eq!(rt; first_good(rt.alloc(), rows), None);
}

#[test]
fn numbers_have_no_sign_and_no_leading_zeros(rt: HostRuntime) {
    let rows: &[&str] = &[
        "at", "at 007", "at 00", "at +7", "at -7", "at 0x7", "at 7a", "at 1 2",
    ];
    assert_eq!(rt; first_good(rt.alloc(), rows), None);
}

#[test]
fn bytes_are_whole_and_there_is_one(rt: HostRuntime) {
    let rows: &[&str] = &[
        "feed a 0",
        "feed a 0 ",
        "feed a 0 8",
        "feed a 0 800",
        "feed a 0 8g",
        "feed a 4 80",
        "feed a 00 80",
        "feed a 0 80 00",
    ];
    assert_eq!(rt; first_good(rt.alloc(), rows), None);
}

#[test]
fn numbers_keep_their_least(rt: HostRuntime) {
    let rows: &[&str] = &[
        "clean a 0",
        "fence a 3",
        "fuse a 0",
        "fail a 0",
        "clean a",
        "fence a",
    ];
    assert_eq!(rt; first_good(rt.alloc(), rows), None);
}

#[test]
fn a_promotion_names_how_and_its_answers(rt: HostRuntime) {
    let rows: &[&str] = &[
        "promote a 5",
        "promote a 5 strict",
        "promote a 5 weak",
        "promote a 5 0",
        "promote a 5 Weak 0",
        "promote a 5 weak 0 00",
        "promote a 5 weak 0 ",
    ];
    assert_eq!(rt; first_good(rt.alloc(), rows), None);
}

#[test]
fn a_chain_has_1_to_4_places_with_names_of_their_own(rt: HostRuntime) {
    let rows: &[&str] = &[
        "chain",
        "chain -",
        "chain - a",
        "chain a a",
        "chain a - b a",
        "chain a b c d e",
        "chain A",
        "chain a_b",
        "chain abcdefghijklmnopq",
        "chain a ",
    ];
    assert_eq!(rt; first_good(rt.alloc(), rows), None);
}

#[test]
fn the_places_of_a_chain_are_read_in_order(rt: HostRuntime) -> Result<(), Fail> {
    let line = read_line(rt.alloc(), b"chain a - b7 -")?;
    let Line::Chain { names } = line else {
        return Err(Fail::from("another line"));
    };
    match names.as_slice() {
        [Some(first), None, Some(third), None] => {
            assert_eq!(rt; first.as_slice(), b"a".as_slice());
            assert_eq!(rt; third.as_slice(), b"b7".as_slice());
        }
        _ => return Err(Fail::from("another line")),
    }
    Ok(())
}

#[test]
fn digits_of_bytes_are_of_either_case(rt: HostRuntime) -> Result<(), Fail> {
    let line = read_line(rt.alloc(), b"feed a 2 00dEaDfF")?;
    let Line::Feed { bytes, .. } = line else {
        return Err(Fail::from("another line"));
    };
    assert_eq!(rt; bytes.as_slice(), [0, 0xde, 0xad, 0xff].as_slice());
    Ok(())
}

#[test]
fn the_answers_of_a_promotion_are_read_in_order(rt: HostRuntime) -> Result<(), Fail> {
    let line = read_line(rt.alloc(), b"promote a 5 strict 2 0 2")?;
    let Line::Promote { answers, .. } = line else {
        return Err(Fail::from("another line"));
    };
    assert_eq!(rt; answers.as_slice(), [2, 0, 2].as_slice());
    Ok(())
}
