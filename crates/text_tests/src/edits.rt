// Edits of a text, and one call of each function with ample memory.
use std::alloc::{AllocError, Global};
use std::process::Abort;
use std::test::Fail;
use text_lines::{Change, ChangeText, EditError, Encoding, Pos, apply};

/// A text, the range's start and end as lines and UTF-16 units, the new text, and what it gives.
type Edit = (
    &'static str,
    (u32, u32),
    (u32, u32),
    &'static str,
    Result<&'static str, EditError>,
);

static EDITS: [Edit; 8] = [
    ("ab\ncd", (0, 1), (1, 1), "X", Ok("aXd")),
    ("ab\r\ncd", (0, 2), (1, 0), "", Ok("abcd")),
    ("a\u{1f600}b", (0, 1), (0, 3), "", Ok("ab")),
    ("a\u{1f600}b", (0, 2), (0, 2), "X", Ok("aX\u{1f600}b")),
    ("ab\ncd", (0, 99), (0, 7), "X", Ok("abX\ncd")),
    ("ab\ncd", (9, 0), (9, 5), "X", Ok("ab\ncdX")),
    ("ab\ncd", (1, 0), (0, 1), "X", Err(EditError::Reversed)),
    ("", (0, 0), (0, 0), "X", Ok("X")),
];

fn change_of(alloc: Global, edit: &Edit) -> Result<Change, AllocError> {
    let (_, start, end, new, _) = *edit;
    let start = Pos {
        line: start.0,
        character: start.1,
    };
    let end = Pos {
        line: end.0,
        character: end.1,
    };
    let text = String::from_str(alloc, new)?;
    Ok(Change {
        range: Some((start, end)),
        text: ChangeText::from_string(text),
    })
}

/// What an edit answers, and the text that it leaves.
fn is_edited(rt: &impl Abort, text: &mut String, change: &Change, edit: &Edit) {
    let (before, _, _, _, want) = *edit;
    assert!(rt; text.len() <= 1000);
    let answer = apply(text, change, Encoding::Utf16);
    let (left, told) = match want {
        Ok(after) => (after, Ok(())),
        Err(error) => (before, Err(error)),
    };
    assert_eq!(rt; answer, told);
    assert_eq!(rt; text.as_str(), left);
}

fn check_edit(rt: &impl Abort, alloc: Global, edit: &Edit) -> Result<(), AllocError> {
    let mut text = String::from_str(alloc, edit.0)?;
    let change = change_of(alloc, edit)?;
    is_edited(rt, &mut text, &change, edit);
    Ok(())
}

#[test]
fn makes_edits(rt: HostRuntime) -> Result<(), Fail> {
    for edit in &EDITS {
        check_edit(&rt, rt.alloc(), edit)?;
    }
    Ok(())
}

fn is_whole(rt: &impl Abort, text: &mut String, change: &Change) {
    assert!(rt; text.len() <= 1000);
    assert_eq!(rt; apply(text, change, Encoding::Utf8), Ok(()));
    assert_eq!(rt; text.as_str(), "whole");
    assert_eq!(rt; change.text.as_str(), "whole");
}

#[test]
fn a_change_without_a_range_is_the_text(rt: HostRuntime) -> Result<(), Fail> {
    let mut text = String::from_str(rt.alloc(), "ab")?;
    let change = Change {
        range: None,
        text: ChangeText::from_string(String::from_str(rt.alloc(), "whole")?),
    };
    is_whole(&rt, &mut text, &change);
    Ok(())
}
