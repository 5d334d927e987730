// The questions that a client asks about a file.
use text_lines::Pos;

/// A question about a file (LSP 3.17, Language Features).
#[derive(Clone, Copy, Debug)]
pub enum Question {
    /// What is at a position.
    Hover(Pos),
    /// Where it is defined.
    Definition(Pos),
    /// Where it is mentioned, with the places that declare it or without.
    References(Pos, bool),
    /// What the file declares at file scope.
    Symbols,
    /// Whether what is at a position may get another name, with its range and spelling.
    Renamable(Pos),
}
