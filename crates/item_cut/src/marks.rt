// The punctuators that cut a unit into items (ISO C11 6.4.6).
ghost use Rattle.std.specs.Prelude.{◌≡◌};
ghost use Rattle.item_cut.specs.Kinds;
ghost use Rattle.item_cut.specs.Marks;

// What a text is to the cut; a digraph is what it stands for.
#[derive(Clone, Copy, Debug, Drop)]
pub(crate) enum Mark {
    OpenParen,
    OpenBracket,
    OpenBrace,
    CloseParen,
    CloseBracket,
    CloseBrace,
    Semicolon,
    Comma,
    Equals,
    Other,
}

// It looks at two bytes at most, and at none of a longer text.
#[inline(always)]
#[tactic(auto, unfolding(crate::specs::Marks::is_opening, crate::specs::Marks::is_closing, crate::specs::Marks::is_open_brace, crate::specs::Marks::is_close_brace, crate::specs::Marks::is_close_paren, crate::specs::Marks::is_semicolon, crate::specs::Marks::is_equals, crate::specs::Marks::is_name_end))]
pub(crate) fn mark_of(text: &str) -> Mark
    ensures opening { Kinds.is_opening result ≡ Marks.is_opening text.now }
    ensures closing { Kinds.is_closing result ≡ Marks.is_closing text.now }
    ensures open_brace { Kinds.is_open_brace result ≡ Marks.is_open_brace text.now }
    ensures close_brace { Kinds.is_close_brace result ≡ Marks.is_close_brace text.now }
    ensures close_paren { Kinds.is_close_paren result ≡ Marks.is_close_paren text.now }
    ensures semicolon { Kinds.is_semicolon result ≡ Marks.is_semicolon text.now }
    ensures equals { Kinds.is_equals result ≡ Marks.is_equals text.now }
    ensures name_end { Kinds.is_name_end result ≡ Marks.is_name_end text.now }
{
    match text.as_bytes() {
        [byte] => match *byte {
            b'(' => Mark::OpenParen,
            b'[' => Mark::OpenBracket,
            b'{' => Mark::OpenBrace,
            b')' => Mark::CloseParen,
            b']' => Mark::CloseBracket,
            b'}' => Mark::CloseBrace,
            b';' => Mark::Semicolon,
            b',' => Mark::Comma,
            b'=' => Mark::Equals,
            _ => Mark::Other,
        },
        [first, second] => match (*first, *second) {
            (b'<', b':') => Mark::OpenBracket,
            (b'<', b'%') => Mark::OpenBrace,
            (b':', b'>') => Mark::CloseBracket,
            (b'%', b'>') => Mark::CloseBrace,
            _ => Mark::Other,
        },
        _ => Mark::Other,
    }
}

// What stands behind the name that an item declares.
pub(crate) fn is_name_end(text: &str) -> bool
    ensures { result ≡ Marks.is_name_end text.now }
{
    match mark_of(text) {
        Mark::OpenParen | Mark::OpenBracket | Mark::OpenBrace => true,
        Mark::Semicolon | Mark::Comma | Mark::Equals => true,
        _ => false,
    }
}
