// Small types over a file's bytes and a path's text, which contracts see as lists.
use std::marker::Model;

/// The bytes of a file, which contracts see as their list.
#[derive(Clone, Debug, Drop)]
pub struct FileBytes {
    bytes: Vec<u8>,
}

impl Model for FileBytes {
    ghost use Rattle.std.specs.Prelude.{ℕ, List};

    ghost Value = { List ℕ };

    ghost view = { λ b. b.bytes.items };
}

impl FileBytes {
    ghost use Rattle.std.specs.Prelude.{◌≡◌};

    /// These bytes.
    pub fn from_vec(bytes: Vec<u8>) -> FileBytes
        ensures { result ≡ bytes.items }
    {
        FileBytes { bytes }
    }

    /// The bytes, lent.
    pub fn as_slice(&self) -> &[u8]
        ensures { result.now ≡ self.now }
    {
        self.bytes.as_slice()
    }

    /// The bytes, given away.
    pub fn into_vec(self) -> Vec<u8>
        ensures { result.items ≡ self }
    {
        let Self { bytes } = self;
        bytes
    }
}

/// The path of a listed file as the store names it, which contracts see as its bytes.
#[derive(Clone, Debug, Drop)]
pub struct PathText {
    text: String,
}

impl Model for PathText {
    ghost use Rattle.std.specs.Prelude.{ℕ, List};
    ghost use Rattle.std.specs.String.{string_bytes};

    ghost Value = { List ℕ };

    ghost view = { λ p. string_bytes p.text };
}

impl PathText {
    ghost use Rattle.std.specs.Prelude.{◌≡◌};
    ghost use Rattle.std.specs.String.{string_bytes};

    /// This text.
    pub fn from_string(text: String) -> PathText
        ensures { result ≡ string_bytes text }
    {
        PathText { text }
    }

    /// The text, lent.
    pub fn as_str(&self) -> &str
        ensures { result.now ≡ self.now }
    {
        self.text.as_str()
    }

    /// The text, given away.
    pub fn into_string(self) -> String
        ensures { string_bytes result ≡ self }
    {
        let Self { text } = self;
        text
    }
}
