// The characters of a command, one by one.
ghost use Rattle.std.specs.Prelude.{◌≡◌};
ghost use Rattle.project_conf.specs.Parting.{step};
ghost use Rattle.project_conf.specs.Runs.{stands};

/// Where in a command a character stands.
#[derive(Clone, Copy, Debug, PartialEq, Eq)]
pub(crate) enum Mode {
    /// Outside of quotes.
    Plain,
    /// Behind a backslash outside of quotes.
    Escaped,
    /// Between `'` and `'`.
    Single,
    /// Between `"` and `"`.
    Double,
    /// Behind a backslash between `"` and `"`.
    DoubleEscaped,
}

/// What a character of a command does.
#[derive(Clone, Copy, Debug, PartialEq, Eq)]
pub(crate) enum Act {
    /// It parts two words.
    Parts,
    /// It belongs to the word and stands for nothing by itself.
    Turns(Mode),
    /// It stands for itself.
    Keeps(Mode),
    /// It stands for itself, and so does the backslash before it.
    KeepsBoth(Mode),
}

#[tactic(auto, unfolding(crate::specs::Parting::step))]
pub(crate) fn step(mode: Mode, c: char) -> Act
    ensures { result ≡ step mode c }
{
    match mode {
        Mode::Plain => match c {
            ' ' => Act::Parts,
            '\'' => Act::Turns(Mode::Single),
            '"' => Act::Turns(Mode::Double),
            '\\' => Act::Turns(Mode::Escaped),
            _ => Act::Keeps(Mode::Plain),
        },
        Mode::Escaped => Act::Keeps(Mode::Plain),
        Mode::Single => match c {
            '\'' => Act::Turns(Mode::Plain),
            _ => Act::Keeps(Mode::Single),
        },
        Mode::Double => match c {
            '"' => Act::Turns(Mode::Plain),
            '\\' => Act::Turns(Mode::DoubleEscaped),
            _ => Act::Keeps(Mode::Double),
        },
        Mode::DoubleEscaped => match c {
            '"' | '\\' => Act::Keeps(Mode::Double),
            _ => Act::KeepsBoth(Mode::Double),
        },
    }
}

/// Whether a byte is of a character that stands for itself, and leaves the next one where it stands.
#[tactic(auto, unfolding(crate::specs::Runs::stands))]
pub(crate) fn stands(mode: Mode, b: u8) -> bool
    ensures { result ≡ stands mode b }
{
    match mode {
        Mode::Plain => !(b == b' ' || b == b'\'' || b == b'"' || b == b'\\'),
        Mode::Single => !(b == b'\''),
        Mode::Double => !(b == b'"' || b == b'\\'),
        Mode::Escaped | Mode::DoubleEscaped => false,
    }
}
