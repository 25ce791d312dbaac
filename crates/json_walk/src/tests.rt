//! What no clause says: that places are those that a reader of a text counts.
ghost use Rattle.std.specs.Prelude.{◌≤◌, length};

use crate::{PartAt, count, first_part, kind_at, last_end, next_part, part, root, value_end};
use json_model::{Kind, Shape};

/// The number of the first row that is told otherwise: a text, the place of a value, what it is,
/// the place behind it, how many parts it has, and the place behind the last one's value.
fn first_wrong_value(rows: &[(&[u8], usize, Kind, usize, u64, Option<usize>)]) -> Option<usize> {
    let mut number = 0;
    for (text, at, kind, end, many, last) in rows {
        if *at > text.len() {
            return Some(number);
        }
        if kind_at(text, *at) != *kind || value_end(text, *at) != *end {
            return Some(number);
        }
        if count(text, *at) != *many || last_end(text, *at) != *last {
            return Some(number);
        }
        number = number.saturating_add(1);
    }
    None
}

#[test]
fn values_end_where_a_reader_counts(rt: HostRuntime) {
    let text = b"{\"a\": [1, \"]\\\"\"], \"b\": {}}";
    let blank = b" [ 1 , [2,3] , true ] ";
    let rows: &[(&[u8], usize, Kind, usize, u64, Option<usize>)] = &[
        (text, 0, Kind::Object, 26, 2, Some(25)),
        (text, 6, Kind::Array, 16, 2, Some(15)),
        (text, 7, Kind::Number, 8, 0, None),
        (text, 10, Kind::Text, 15, 0, None),
        (text, 23, Kind::Object, 25, 0, None),
        (blank, 1, Kind::Array, 21, 3, Some(19)),
        (blank, 7, Kind::Array, 12, 2, Some(11)),
        (blank, 15, Kind::True, 19, 0, None),
        (b"[ ]", 0, Kind::Array, 3, 0, None),
        (b"-1.5E+3", 0, Kind::Number, 7, 0, None),
        (b"false\n", 0, Kind::False, 5, 0, None),
        (b"null", 0, Kind::Null, 4, 0, None),
    ];
    assert_eq!(rt; first_wrong_value(rows), None);
    assert_eq!(rt; root(blank), 1);
}

fn place(found: Option<PartAt>) -> (usize, usize, usize) {
    match found {
        None => (0, 0, 0),
        Some(part) => (part.start, part.key_to, part.value),
    }
}

/// The part behind one of a value's parts, or its first.
fn stepped(text: &[u8], at: usize, number: u64) -> Option<PartAt>
    requires { at ≤ length text.now }
{
    if number == 0 {
        return first_part(text, at);
    }
    let shape = match kind_at(text, at) {
        Kind::Object => Shape::Object,
        _ => Shape::Array,
    };
    match part(text, at, number - 1) {
        None => None,
        Some(before) => next_part(text, shape, value_end(text, before.value)),
    }
}

/// The number of the first row that is told otherwise: a text, the place of a value, the number of
/// a part, and where it starts, its key ends and its value begins; all 0 where there is none.
fn first_wrong_part(rows: &[(&[u8], usize, u64, (usize, usize, usize))]) -> Option<usize> {
    let mut number = 0;
    for (text, at, wanted, places) in rows {
        if *at > text.len() {
            return Some(number);
        }
        if place(part(text, *at, *wanted)) != *places {
            return Some(number);
        }
        if place(stepped(text, *at, *wanted)) != *places {
            return Some(number);
        }
        number = number.saturating_add(1);
    }
    None
}

#[test]
fn parts_stand_where_a_reader_counts(rt: HostRuntime) {
    let text = b"{\"a\": [1, \"]\\\"\"], \"b\": {}}";
    let blank = b" { \"a\" : 1 , \"}\":[2] } ";
    let rows: &[(&[u8], usize, u64, (usize, usize, usize))] = &[
        (text, 0, 0, (1, 4, 6)),
        (text, 0, 1, (18, 21, 23)),
        (text, 0, 2, (0, 0, 0)),
        (text, 6, 0, (7, 7, 7)),
        (text, 6, 1, (10, 10, 10)),
        (text, 6, 2, (0, 0, 0)),
        (text, 7, 0, (0, 0, 0)),
        (text, 23, 0, (0, 0, 0)),
        (blank, 1, 0, (3, 6, 9)),
        (blank, 1, 1, (13, 16, 17)),
    ];
    assert_eq!(rt; first_wrong_part(rows), None);
}
