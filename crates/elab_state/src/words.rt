// The keywords among declaration specifiers and qualifiers (ISO C11 6.7.1 to 6.7.4).
ghost use Rattle.std.specs.Prelude.{◌≡◌, bytes_eq, option_map};
ghost use Rattle.std.specs.List.{find};
ghost use Rattle.elab_state.specs.Words as spec;

/// A keyword among declaration specifiers and qualifiers.
#[derive(Clone, Copy, Debug, PartialEq, Eq, Drop)]
pub enum Word {
    Void,
    Char,
    Short,
    Int,
    Long,
    Float,
    Double,
    Signed,
    Unsigned,
    Bool,
    Complex,
    Imaginary,
    Const,
    Restrict,
    Volatile,
    Atomic,
    Typedef,
    Extern,
    Static,
    ThreadLocal,
    Auto,
    Register,
    Inline,
    Noreturn,
    /// No such keyword.
    Other,
}

static WORDS: [(&str, Word); 24] = [
    ("int", Word::Int),
    ("char", Word::Char),
    ("void", Word::Void),
    ("const", Word::Const),
    ("unsigned", Word::Unsigned),
    ("static", Word::Static),
    ("long", Word::Long),
    ("double", Word::Double),
    ("short", Word::Short),
    ("float", Word::Float),
    ("signed", Word::Signed),
    ("typedef", Word::Typedef),
    ("extern", Word::Extern),
    ("inline", Word::Inline),
    ("volatile", Word::Volatile),
    ("restrict", Word::Restrict),
    ("_Bool", Word::Bool),
    ("register", Word::Register),
    ("auto", Word::Auto),
    ("_Noreturn", Word::Noreturn),
    ("_Thread_local", Word::ThreadLocal),
    ("_Atomic", Word::Atomic),
    ("_Complex", Word::Complex),
    ("_Imaginary", Word::Imaginary),
];

fn look_up(text: &str, table: &[(&str, Word)]) -> Option<Word>
    ensures { result ≡ option_map (λ e. e.1) (find (λ e. bytes_eq e.0.now text.now) table.now) }
{
    table.iter().find(|e| e.0 == text).map(|e| e.1)
}

/// The keyword that a text is.
pub fn word_of(text: &str) -> Word
    ensures { result ≡ spec.word_of text.now }
{
    match look_up(text, WORDS.as_slice()) {
        Some(word) => word,
        None => Word::Other,
    }
}
