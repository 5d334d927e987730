// What the small types and laws of lexing give.
use c_tokens::*;
use std::alloc::{AllocError, Global};

// The lists of a result are those that its small types are made of.
fn remade(alloc: Global) -> Result<(usize, usize, usize), AllocError> {
    let lexed = lex(alloc, "a @")?;
    let tokens = Tokens::from_vec(lexed.tokens.into_vec());
    let places = TokenPlaces::from_vec(lexed.places.into_vec());
    let faults = Faults::from_vec(lexed.faults.into_vec());
    Ok((
        tokens.as_slice().len(),
        places.as_slice().len(),
        faults.as_slice().len(),
    ))
}

// A text's tokens, the number of its places and faults, and the line of an offset.
fn parted(
    alloc: Global,
    text: &str,
    offset: u32,
) -> Result<(usize, usize, usize, u32), AllocError> {
    if 4_290_772_992 < text.len() {
        return Ok((0, 0, 0, 0));
    }
    let lexed = lex(alloc, text)?;
    let (tokens, places) = lexed.split(alloc, text)?;
    Ok((
        tokens.len(),
        places.places.as_slice().len(),
        places.faults.as_slice().len(),
        places.lines.line(offset),
    ))
}

#[test]
fn keeps_places_apart(rt: HostRuntime) -> Result<(), AllocError> {
    assert_eq!(rt; parted(rt.alloc(), "a @\nb", 4)?, (3, 3, 1, 1));
    assert_eq!(rt; parted(rt.alloc(), "", 0)?, (0, 0, 0, 0));
    assert_eq!(rt; parted(rt.alloc(), "'\r\n\r\n#", 5)?, (2, 2, 1, 2));
    Ok(())
}

#[test]
fn tells_identifiers(rt: HostRuntime) {
    identifiers_are_tokens("a");
    for text in ["a", "_", "Z", "int", "x9", "__LINE__", "L", "u8", "a_B0"] {
        assert!(rt; is_identifier(text));
    }
    for text in [
        "", "9a", "a b", " a", "a ", "a\n", "a\\\nb", "??=", "a??/", "\u{e9}", "a\u{e9}", "-",
        "L'a'", "$",
    ] {
        assert!(rt; !is_identifier(text));
    }
}

#[test]
fn takes_lists_apart(rt: HostRuntime) -> Result<(), AllocError> {
    pieces_join("a");
    characters_follow("a");
    front_is_longest(b"a".as_slice());
    assert_eq!(rt; remade(rt.alloc())?, (2, 2, 1));
    Ok(())
}
