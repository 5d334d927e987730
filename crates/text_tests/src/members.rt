// What JSON values are read as, worked out from JSON-RPC 2.0 and LSP 3.17, and one call of each function with ample memory.
use json_view::{
    Id, ViewError, get_array, get_bool, get_i32, get_id, get_object, get_pos, get_range, get_str,
    get_text, get_u32,
};
use serde_json::Value;
use std::alloc::{AllocError, Global};
use std::process::Abort;
use std::test::Fail;
use text_lines::Pos;

const KEY: &str = "n";

const MISSING: ViewError = ViewError::Missing(KEY);

const WRONG: ViewError = ViewError::WrongKind(KEY);

const OUTSIDE: ViewError = ViewError::OutOfRange(KEY);

/// Values, and what their member `n` is as an i32 and as a u32.
static WHOLE: [(&str, Result<i32, ViewError>, Result<u32, ViewError>); 20] = [
    (r#"{"n":0}"#, Ok(0), Ok(0)),
    (r#"{"n":7}"#, Ok(7), Ok(7)),
    (r#"{"n":-1}"#, Ok(-1), Err(OUTSIDE)),
    (r#"{"n":2147483647}"#, Ok(2147483647), Ok(2147483647)),
    (r#"{"n":2147483648}"#, Err(OUTSIDE), Ok(2147483648)),
    (r#"{"n":-2147483648}"#, Ok(-2147483648), Err(OUTSIDE)),
    (r#"{"n":-2147483649}"#, Err(OUTSIDE), Err(OUTSIDE)),
    (r#"{"n":4294967295}"#, Err(OUTSIDE), Ok(4294967295)),
    (r#"{"n":4294967296}"#, Err(OUTSIDE), Err(OUTSIDE)),
    (r#"{"n":18446744073709551615}"#, Err(OUTSIDE), Err(OUTSIDE)),
    (r#"{"n":-9223372036854775808}"#, Err(OUTSIDE), Err(OUTSIDE)),
    (r#"{"n":1.0}"#, Err(WRONG), Err(WRONG)),
    (r#"{"n":1e2}"#, Err(WRONG), Err(WRONG)),
    (r#"{"n":-0}"#, Err(WRONG), Err(WRONG)),
    (r#"{"n":18446744073709551616}"#, Err(WRONG), Err(WRONG)),
    (r#"{"n":"1"}"#, Err(WRONG), Err(WRONG)),
    (r#"{"n":null}"#, Err(WRONG), Err(WRONG)),
    (r#"{"m":1}"#, Err(MISSING), Err(MISSING)),
    (r#"[1]"#, Err(MISSING), Err(MISSING)),
    (r#"{"n":1,"n":2}"#, Ok(2), Ok(2)),
];

fn are_whole(
    rt: &impl Abort,
    value: &Value,
    signed: Result<i32, ViewError>,
    unsigned: Result<u32, ViewError>,
) {
    assert_eq!(rt; get_i32(value, KEY), signed);
    assert_eq!(rt; get_u32(value, KEY), unsigned);
}

#[test]
fn whole_numbers_are_read(rt: HostRuntime) -> Result<(), Fail> {
    for (text, signed, unsigned) in &WHOLE {
        let value = Value::from_str(rt.alloc(), text)?;
        are_whole(&rt, &value, *signed, *unsigned);
    }
    Ok(())
}

/// Values, and what their member `n` is as a text and as a truth value.
static KINDS: [(&str, Result<&str, ViewError>, Result<bool, ViewError>); 5] = [
    (r#"{"n":"a\u00e9"}"#, Ok("a\u{e9}"), Err(WRONG)),
    (r#"{"n":true}"#, Err(WRONG), Ok(true)),
    (r#"{"n":false}"#, Err(WRONG), Ok(false)),
    (r#"{"n":["a"]}"#, Err(WRONG), Err(WRONG)),
    (r#"{}"#, Err(MISSING), Err(MISSING)),
];

fn is_text(found: &Result<String, ViewError>, wanted: &Result<&str, ViewError>) -> bool {
    match (found, wanted) {
        (Ok(text), Ok(other)) => text.as_str() == *other,
        (Err(reason), Err(other)) => reason == other,
        _ => false,
    }
}

fn are_read(
    rt: &impl Abort,
    value: &Value,
    text: Result<&str, ViewError>,
    truth: Result<bool, ViewError>,
) {
    assert_eq!(rt; get_str(value, KEY), text);
    assert_eq!(rt; get_bool(value, KEY), truth);
}

#[test]
fn texts_and_truth_values_are_read(rt: HostRuntime) -> Result<(), Fail> {
    for (json, text, truth) in &KINDS {
        let value = Value::from_str(rt.alloc(), json)?;
        let copy = get_text(rt.alloc(), &value, KEY);
        assert!(rt; is_text(&copy, text));
        are_read(&rt, &value, *text, *truth);
    }
    Ok(())
}

/// Values, and what their member `n` is as an array, by the number of its elements, and as an object, by its member `n`.
static PARTS: [(&str, Result<usize, ViewError>, Result<&str, ViewError>); 6] = [
    (r#"{"n":[]}"#, Ok(0), Err(WRONG)),
    (r#"{"n":[1,{"n":"a"},null]}"#, Ok(3), Err(WRONG)),
    (r#"{"n":{"n":"a"}}"#, Err(WRONG), Ok("a")),
    (r#"{"n":{}}"#, Err(WRONG), Err(MISSING)),
    (r#"{"n":null}"#, Err(WRONG), Err(WRONG)),
    (r#"{}"#, Err(MISSING), Err(MISSING)),
];

fn number_of(value: &Value) -> Result<usize, ViewError> {
    match get_array(value, KEY) {
        Ok(found) => Ok(found.len()),
        Err(error) => Err(error),
    }
}

fn inner_of(value: &Value) -> Result<&str, ViewError> {
    match get_object(value, KEY) {
        Ok(object) => get_str(object, KEY),
        Err(error) => Err(error),
    }
}

#[test]
fn arrays_and_objects_are_read(rt: HostRuntime) -> Result<(), Fail> {
    for (json, elements, inner) in &PARTS {
        let value = Value::from_str(rt.alloc(), json)?;
        assert_eq!(rt; number_of(&value), *elements);
        assert_eq!(rt; inner_of(&value), *inner);
    }
    Ok(())
}

/// Values, and what their member `n` is as a position.
static PLACES: [(&str, Result<Pos, ViewError>); 7] = [
    (
        r#"{"n":{"line":3,"character":5}}"#,
        Ok(Pos {
            line: 3,
            character: 5,
        }),
    ),
    (r#"{"n":{"character":-1}}"#, Err(ViewError::Missing("line"))),
    (
        r#"{"n":{"line":"3","character":-1}}"#,
        Err(ViewError::WrongKind("line")),
    ),
    (
        r#"{"n":{"line":3,"character":-1}}"#,
        Err(ViewError::OutOfRange("character")),
    ),
    (r#"{"n":{"line":3}}"#, Err(ViewError::Missing("character"))),
    (r#"{"n":[3,5]}"#, Err(WRONG)),
    (r#"{}"#, Err(MISSING)),
];

#[test]
fn positions_are_read(rt: HostRuntime) -> Result<(), Fail> {
    for (json, wanted) in &PLACES {
        let value = Value::from_str(rt.alloc(), json)?;
        assert_eq!(rt; get_pos(&value, KEY), *wanted);
    }
    Ok(())
}

/// Values, and what their member `n` is as a range: lines and characters, or the refusal.
static RANGES: [(&str, Result<(u32, u32, u32, u32), ViewError>); 7] = [
    (
        r#"{"n":{"end":{"line":3,"character":4},"start":{"line":1,"character":2}}}"#,
        Ok((1, 2, 3, 4)),
    ),
    (
        r#"{"n":{"start":{"line":1},"end":5}}"#,
        Err(ViewError::Missing("character")),
    ),
    (
        r#"{"n":{"start":{"line":1,"character":2},"end":5}}"#,
        Err(ViewError::WrongKind("end")),
    ),
    (r#"{"n":{"end":5}}"#, Err(ViewError::Missing("start"))),
    (
        r#"{"n":{"start":{"line":1,"character":2}}}"#,
        Err(ViewError::Missing("end")),
    ),
    (r#"{"n":"1:2"}"#, Err(WRONG)),
    (r#"{"start":1}"#, Err(MISSING)),
];

fn is_range(
    found: &Result<(Pos, Pos), ViewError>,
    wanted: &Result<(u32, u32, u32, u32), ViewError>,
) -> bool {
    match (found, wanted) {
        (Ok((start, end)), Ok((line, character, end_line, end_character))) => {
            start.line == *line
                && start.character == *character
                && end.line == *end_line
                && end.character == *end_character
        }
        (Err(reason), Err(other)) => reason == other,
        _ => false,
    }
}

#[test]
fn ranges_are_read(rt: HostRuntime) -> Result<(), Fail> {
    for (json, wanted) in &RANGES {
        let value = Value::from_str(rt.alloc(), json)?;
        assert!(rt; is_range(&get_range(&value, KEY), wanted));
    }
    Ok(())
}

/// Values, and their ids as texts.
static IDS: [(&str, &str); 12] = [
    (r#"{"id":"a"}"#, "text a"),
    (r#"{"id":""}"#, "text "),
    (r#"{"id":1}"#, "int 1"),
    (r#"{"id":-1}"#, "int -1"),
    (r#"{"id":9223372036854775807}"#, "int 9223372036854775807"),
    (r#"{"id":9223372036854775808}"#, "big 9223372036854775808"),
    (r#"{"id":18446744073709551615}"#, "big 18446744073709551615"),
    (
        r#"{"id":18446744073709551616}"#,
        "`id` is of the wrong kind",
    ),
    (r#"{"id":1.0}"#, "`id` is of the wrong kind"),
    (r#"{"id":null}"#, "`id` is of the wrong kind"),
    (r#"{"ID":1}"#, "`id` is missing"),
    (r#"null"#, "`id` is missing"),
];

fn shown_id(alloc: Global, value: &Value) -> Result<String, AllocError> {
    match get_id(alloc, value) {
        Ok(Id::Text(text)) => format!(in alloc; "text {}", text.as_str()),
        Ok(Id::Int(number)) => format!(in alloc; "int {number}"),
        Ok(Id::Big(number)) => format!(in alloc; "big {number}"),
        Err(error) => format!(in alloc; "{error}"),
    }
}

#[test]
fn ids_are_read(rt: HostRuntime) -> Result<(), Fail> {
    for (json, wanted) in &IDS {
        let value = Value::from_str(rt.alloc(), json)?;
        let shown = shown_id(rt.alloc(), &value)?;
        assert_eq!(rt; shown.as_str(), *wanted);
    }
    Ok(())
}
