// What the words of the command line say.
ghost use Rattle.std.specs.Prelude.{◌≡◌, IfOk, string_bytes};
ghost use Rattle.project_conf.specs.Options.{no_options};

use shared_list::Listing;
use shared_text::Name;
use std::alloc::{AllocError, Global};
use std::marker::Model;

/// A folder to search for included files, as the words give it: absolute, or relative to the root. Contracts see its bytes.
#[derive(Debug, Drop)]
pub struct Folder {
    text: String,
}

impl Model for Folder {
    ghost use Rattle.std.specs.Prelude.{ℕ, List};
    ghost use Rattle.std.specs.String.{string_bytes};

    ghost Value = { List ℕ };

    ghost view = { λ folder. string_bytes folder.text };
}

impl Folder {
    pub fn from_string(text: String) -> Folder
        ensures { result ≡ string_bytes text }
    {
        Folder { text }
    }

    pub fn as_str(&self) -> &str
        ensures { result.now ≡ self.now }
    {
        self.text.as_str()
    }
}

/// Folders to search, in order.
pub type Folders = Listing<Folder>;

/// A definition that is given to a unit before its own text (ISO C11 6.10.3).
#[derive(Debug, Drop)]
pub enum Define {
    /// The name is defined with the tokens of the text.
    Set(Name, Name),
    /// The name has no definition.
    Unset(Name),
}

impl Define {
    /// The same definition, of which name and text are shared.
    pub fn share(&self) -> Result<Define, AllocError>
        ensures { IfOk result (λ copy. copy ≡ self.now) }
    {
        match self {
            Define::Set(name, text) => {
                let name = name.share()?;
                let text = text.share()?;
                Ok(Define::Set(name, text))
            }
            Define::Unset(name) => {
                let name = name.share()?;
                Ok(Define::Unset(name))
            }
        }
    }
}

/// Definitions, in order: each is made over what those before it leave.
pub type Defines = Listing<Define>;

/// What the words of the command line say.
#[derive(Debug, Drop)]
pub struct Options {
    /// The folders to search for every unit.
    pub includes: Folders,
    /// The definitions that every unit begins with.
    pub defines: Defines,
    /// The number of units of a generated run; none where the client is served.
    pub generate: Option<u32>,
}

impl Options {
    /// What no words say.
    pub fn none(alloc: Global) -> Options
        ensures { result ≡ no_options }
    {
        Options {
            includes: Folders::from_vec(Vec::new(alloc)),
            defines: Defines::from_vec(Vec::new(alloc)),
            generate: None,
        }
    }
}
