// Copies of tokens, tokens as keys of maps, and keywords.
use shared_text::Name;
use std::alloc::{AllocError, Global};
use std::collections::HashMap;
use tok_data::{
    FileId, MacroOcc, MacroRole, Placed, PpFault, PpKind, PpToken, ShownFault, TokId, is_keyword,
};

fn token(alloc: Global, name: &str, at: u32) -> Result<TokId, AllocError> {
    let name = Name::from_str(alloc, name)?;
    let file = FileId::from_name(name);
    Ok(TokId { file, at })
}

fn input(alloc: Global) -> Result<PpToken, AllocError> {
    let spelling = Name::from_str(alloc, "0x10")?;
    Ok(PpToken {
        kind: PpKind::Number,
        spelling,
        space_before: false,
        line_start: true,
    })
}

fn occurrence(alloc: Global) -> Result<MacroOcc, AllocError> {
    let tok = token(alloc, "/main.c", 1)?;
    let def = token(alloc, "<stddef.h>", 9)?;
    let name = Name::from_str(alloc, "NULL")?;
    Ok(MacroOcc {
        tok,
        name,
        role: MacroRole::Tests,
        def: Some(def),
        made: true,
    })
}

fn fault(alloc: Global) -> Result<PpFault, AllocError> {
    let tok = token(alloc, "/main.c", 1)?;
    let text = Name::from_str(alloc, "+ -")?;
    Ok(PpFault {
        rule: 206,
        tok,
        text,
    })
}

fn placed(alloc: Global) -> Result<Placed, AllocError> {
    let tok = token(alloc, "/main.c", 1)?;
    let text = Name::from_str(alloc, "too many replacements")?;
    Ok(Placed {
        fault: ShownFault {
            tok,
            rule: 207,
            text,
        },
        start: 5,
        end: 9,
    })
}

fn copies_inputs(alloc: Global) -> Result<bool, AllocError> {
    let token = input(alloc)?;
    let copy = token.copy()?;
    Ok(copy == token)
}

fn copies_occurrences(alloc: Global) -> Result<bool, AllocError> {
    let occurrence = occurrence(alloc)?;
    let copy = occurrence.copy()?;
    Ok(copy == occurrence)
}

fn copies_faults(alloc: Global) -> Result<bool, AllocError> {
    let fault = fault(alloc)?;
    let copy = fault.copy()?;
    Ok(copy == fault)
}

fn copies_placed(alloc: Global) -> Result<bool, AllocError> {
    let placed = placed(alloc)?;
    let copy = placed.copy()?;
    Ok(copy == placed)
}

#[test]
fn copies_are_equal(rt: HostRuntime) -> Result<(), AllocError> {
    let alloc = rt.alloc();
    assert!(rt; copies_inputs(alloc)?);
    assert!(rt; copies_occurrences(alloc)?);
    assert!(rt; copies_faults(alloc)?);
    assert!(rt; copies_placed(alloc)?);
    Ok(())
}

fn enter(
    alloc: Global,
    lines: &mut HashMap<TokId, u32>,
    name: &str,
    line: u32,
) -> Result<(), AllocError> {
    let token = token(alloc, name, 10)?;
    lines.insert(token, line)?;
    Ok(())
}

// What two tokens of one number are mapped to.
fn lines(alloc: Global) -> Result<HashMap<TokId, u32>, AllocError> {
    let mut lines: HashMap<TokId, u32> = HashMap::new(alloc);
    enter(alloc, &mut lines, "/a.c", 2)?;
    enter(alloc, &mut lines, "/b.c", 3)?;
    Ok(lines)
}

fn line_of(alloc: Global, name: &str, at: u32) -> Result<Option<u32>, AllocError> {
    let lines = lines(alloc)?;
    let token = token(alloc, name, at)?;
    Ok(lines.get(&token).copied())
}

fn is_before(alloc: Global, name: &str, at: u32) -> Result<bool, AllocError> {
    let token = token(alloc, name, at)?;
    let other = self::token(alloc, "/a.c", 10)?;
    Ok(token < other)
}

// Tokens as keys of maps: by their texts' bytes, then by number.
#[test]
fn tokens_are_keys(rt: HostRuntime) -> Result<(), AllocError> {
    let alloc = rt.alloc();
    assert_eq!(rt; line_of(alloc, "/b.c", 10)?, Some(3));
    assert_eq!(rt; line_of(alloc, "/b.c", 9)?, None);
    assert!(rt; is_before(alloc, "/a", 11)?);
    assert!(rt; is_before(alloc, "/a.c", 9)?);
    assert!(rt; !is_before(alloc, "/a.c", 10)?);
    Ok(())
}

const C11_KEYWORDS: &str =
    "auto break case char const continue default do double else enum extern float for goto if
inline int long register restrict return short signed sizeof static struct switch typedef union unsigned void volatile
while _Alignas _Alignof _Atomic _Bool _Complex _Generic _Imaginary _Noreturn _Static_assert _Thread_local";

const NO_KEYWORDS: &str =
    "Auto autos aut _bool bool offsetof offset __offsetof__ main asm NULL 1 ( _Alignas_ whil e";

fn number_of_keywords(text: &str) -> usize {
    text.split_ascii_whitespace()
        .filter(|word| is_keyword(word))
        .count()
}

#[test]
fn keywords_are_those(rt: HostRuntime) {
    assert_eq!(rt; number_of_keywords(C11_KEYWORDS), 44);
    assert_eq!(rt; C11_KEYWORDS.split_ascii_whitespace().count(), 44);
    assert_eq!(rt; number_of_keywords(NO_KEYWORDS), 0);
    assert!(rt; is_keyword("__offsetof"));
    assert!(rt; !is_keyword(""));
}
