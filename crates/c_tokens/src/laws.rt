// Laws of lexing. A call does nothing: its contract is what it is for.
ghost use Rattle.c_tokens.specs.Languages.{FrontIsLongest, FrontIsPiece, StrayIsNoPiece, OpenIsNoLiteral, OpenIsNoComment};
ghost use Rattle.c_tokens.specs.Laws.{PiecesJoin, CharactersFollow, IdentifierIsToken};

/// The pieces of a text, joined, are its logical characters.
pub fn pieces_join(_text: &str)
    ensures { PiecesJoin _text.now }
{}

/// The ranges of a text's logical characters follow one another from its front on.
pub fn characters_follow(_text: &str)
    ensures { CharactersFollow _text.now }
{}

/// A text is an identifier exactly where lexing reads it as one identifier that is spelled as the whole text.
pub fn identifiers_are_tokens(_text: &str)
    ensures { IdentifierIsToken _text.now }
{}

/// The piece at the front of characters, given by their first bytes, is the longest front that the productions of ISO C11
/// Annex A.1 make a token, a comment or white space, and a member of its class, unless it is an open comment, an open
/// literal or a stray character; and these stand only where no front is a comment, a literal or any piece.
pub fn front_is_longest(_codes: &[u8])
    ensures longest { FrontIsLongest _codes.now }
    ensures piece { FrontIsPiece _codes.now }
    ensures stray { StrayIsNoPiece _codes.now }
    ensures open_literal { OpenIsNoLiteral _codes.now }
    ensures open_comment { OpenIsNoComment _codes.now }
{}
