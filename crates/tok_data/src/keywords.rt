// The keywords (ISO C11 6.4.1).
ghost use Rattle.std.specs.Prelude.{◌≡◌, ◌∷◌, bytes_eq};
ghost use Rattle.std.specs.List.{list_any};
ghost use Rattle.tok_data.specs.Keywords;

static KEYWORDS: [&str; 45] = [
    "_Alignas",
    "_Alignof",
    "_Atomic",
    "_Bool",
    "_Complex",
    "_Generic",
    "_Imaginary",
    "_Noreturn",
    "_Static_assert",
    "_Thread_local",
    "__offsetof",
    "auto",
    "break",
    "case",
    "char",
    "const",
    "continue",
    "default",
    "do",
    "double",
    "else",
    "enum",
    "extern",
    "float",
    "for",
    "goto",
    "if",
    "inline",
    "int",
    "long",
    "register",
    "restrict",
    "return",
    "short",
    "signed",
    "sizeof",
    "static",
    "struct",
    "switch",
    "typedef",
    "union",
    "unsigned",
    "void",
    "volatile",
    "while",
];

static RESERVED: [&str; 11] = [
    "_Alignas",
    "_Alignof",
    "_Atomic",
    "_Bool",
    "_Complex",
    "_Generic",
    "_Imaginary",
    "_Noreturn",
    "_Static_assert",
    "_Thread_local",
    "__offsetof",
];

static IN_A: [&str; 1] = ["auto"];

static IN_B: [&str; 1] = ["break"];

static IN_C: [&str; 4] = ["case", "char", "const", "continue"];

static IN_D: [&str; 3] = ["default", "do", "double"];

static IN_E: [&str; 3] = ["else", "enum", "extern"];

static IN_F: [&str; 2] = ["float", "for"];

static IN_G: [&str; 1] = ["goto"];

static IN_I: [&str; 3] = ["if", "inline", "int"];

static IN_L: [&str; 1] = ["long"];

static IN_R: [&str; 3] = ["register", "restrict", "return"];

static IN_S: [&str; 6] = ["short", "signed", "sizeof", "static", "struct", "switch"];

static IN_T: [&str; 1] = ["typedef"];

static IN_U: [&str; 2] = ["union", "unsigned"];

static IN_V: [&str; 2] = ["void", "volatile"];

static IN_W: [&str; 1] = ["while"];

fn is_among(text: &str, table: &[&str]) -> bool
    ensures { result ≡ list_any (λ word. bytes_eq word.now text.now) table.now }
{
    table.iter().any(|word| *word == text)
}

// Whether a text that begins with this byte is a keyword: it is compared with those that begin so.
fn is_one_in(first: u8, _rest: &[u8], text: &str) -> bool
    requires { text.now ≡ first ∷ _rest.now }
    ensures { result ≡ Keywords.is_keyword text.now }
{
    match first {
        b'_' => is_among(text, RESERVED.as_slice()),
        b'a' => is_among(text, IN_A.as_slice()),
        b'b' => is_among(text, IN_B.as_slice()),
        b'c' => is_among(text, IN_C.as_slice()),
        b'd' => is_among(text, IN_D.as_slice()),
        b'e' => is_among(text, IN_E.as_slice()),
        b'f' => is_among(text, IN_F.as_slice()),
        b'g' => is_among(text, IN_G.as_slice()),
        b'h' => false,
        b'i' => is_among(text, IN_I.as_slice()),
        b'j' => false,
        b'k' => false,
        b'l' => is_among(text, IN_L.as_slice()),
        b'm' => false,
        b'n' => false,
        b'o' => false,
        b'p' => false,
        b'q' => false,
        b'r' => is_among(text, IN_R.as_slice()),
        b's' => is_among(text, IN_S.as_slice()),
        b't' => is_among(text, IN_T.as_slice()),
        b'u' => is_among(text, IN_U.as_slice()),
        b'v' => is_among(text, IN_V.as_slice()),
        b'w' => is_among(text, IN_W.as_slice()),
        b'x' => false,
        b'y' => false,
        b'z' => false,
        _ => is_among(text, KEYWORDS.as_slice()),
    }
}

/// Whether a text is a keyword: one of the 44 of ISO C11 6.4.1, or `__offsetof`, which the library text of
/// `<stddef.h>` uses. It compares the text with those of its first byte.
#[tactic(auto, unfolding(crate::specs::Keywords::is_keyword, crate::specs::Keywords::keywords))]
pub fn is_keyword(text: &str) -> bool
    ensures { result ≡ Keywords.is_keyword text.now }
{
    let Some((first, rest)) = text.as_bytes().split_first() else {
        return false;
    };
    is_one_in(*first, rest, text)
}
