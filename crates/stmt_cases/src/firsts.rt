// Declarations in the first part of a `for`: words, of which the first stands at ten times the number of the statement.
use decl_rules::Storage;
use stmt_rules::ForParts;

fn storage_named(word: &str) -> Storage {
    match word {
        "typedef" => Storage::Typedef,
        "extern" => Storage::Extern,
        "static" => Storage::Static,
        "auto" => Storage::Auto,
        "register" => Storage::Register,
        _ => Storage::None,
    }
}

fn note(parts: &mut ForParts, at: u32, word: &str) {
    if word == "thread" {
        parts.thread = Some(at);
        return;
    }
    if word == "function" {
        parts.function = true;
        return;
    }
    let storage = storage_named(word);
    if storage != Storage::None {
        parts.storage = storage;
        parts.storage_at = Some(at);
    }
}

/// The declaration that these words are.
pub fn first_named(number: u32, words: &str) -> ForParts {
    let first = number.wrapping_mul(10);
    let mut parts = ForParts {
        first,
        storage: Storage::None,
        storage_at: None,
        thread: None,
        function: false,
    };
    let mut at = first;
    for word in words.split_ascii_whitespace() {
        note(&mut parts, at, word);
        at = at.wrapping_add(1);
    }
    parts
}
