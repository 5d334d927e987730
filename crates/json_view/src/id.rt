// The ids of requests.
ghost use Rattle.std.specs.Prelude.{◌≡◌};
ghost use Rattle.std.specs.String.{string_bytes};

use std::marker::Model;

/// The text of an id. Contracts see it as its bytes.
#[derive(Debug, Drop)]
pub struct IdText {
    text: String,
}

impl Model for IdText {
    ghost use Rattle.std.specs.Prelude.{ℕ, List};
    ghost use Rattle.std.specs.String.{string_bytes};

    ghost Value = { List ℕ };

    ghost view = { λ t. string_bytes t.text };
}

impl IdText {
    /// The text that a `String` has.
    pub fn from_string(text: String) -> IdText
        ensures { result ≡ string_bytes text }
    {
        IdText { text }
    }

    /// The text.
    pub fn as_str(&self) -> &str
        ensures { result.now ≡ self.now }
    {
        self.text.as_str()
    }
}

/// The id of a request (JSON-RPC 2.0, section 4).
#[derive(Debug, Drop)]
pub enum Id {
    Text(IdText),
    Int(i64),
    /// A whole number from 2^63 on.
    Big(u64),
}
