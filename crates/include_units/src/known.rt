// Names and paths in the order in which they were met, found by their texts.
ghost use Rattle.std.specs.Prelude.{◌≡◌, [], ◌++◌, ◌∷◌, OnOk, OnErr};
ghost use Rattle.include_units.specs.Names.{is_one_of};

use crate::firsts::put;
use shared_text::Name;
use std::alloc::{AllocError, Global};
use std::collections::HashMap;
use std::marker::Model;
use uri_paths::Path;

// Names. Contracts see them as their texts.
#[derive(Drop)]
pub(crate) struct KnownNames {
    alloc: Global,
    items: Vec<Name>,
    texts: HashMap<String, bool>,
}

impl Model for KnownNames {
    ghost use Rattle.std.specs.Prelude.{◌≡◌, ℕ, List, is_some};
    ghost use Rattle.std.specs.HashMap.{get_by_text};
    ghost use Rattle.include_units.specs.Names.{is_one_of};

    ghost Value = { List (List ℕ) };

    ghost view = { λ k. k.items.items };

    ghost invariant = { λ k. (text : List ℕ) → is_some (get_by_text k.texts text) ≡ is_one_of k.items.items text };
}

impl KnownNames {
    pub(crate) fn new(alloc: Global) -> KnownNames
        ensures { result ≡ [] }
    {
        KnownNames {
            alloc,
            items: Vec::new(alloc),
            texts: HashMap::new(alloc),
        }
    }

    pub(crate) fn has(&self, text: &str) -> bool
        ensures { result ≡ is_one_of self.now text.now }
    {
        self.texts.contains_key(text)
    }

    pub(crate) fn push(&mut self, text: &str) -> Result<(), AllocError>
        ensures ok { OnOk result (self.new ≡ self.old ++ text.now ∷ []) }
        ensures kept { OnErr result (self.new ≡ self.old) }
    {
        let name = Name::from_str(self.alloc, text)?;
        self.items.reserve(1)?;
        put(self.alloc, &mut self.texts, text, true)?;
        self.items.push_reserved(name);
        Ok(())
    }
}

// Paths. Contracts see them as their texts.
#[derive(Drop)]
pub(crate) struct KnownPaths {
    paths: Vec<Path>,
    names: KnownNames,
}

impl Model for KnownPaths {
    ghost use Rattle.std.specs.Prelude.{◌≡◌, ℕ, List};

    ghost Value = { List (List ℕ) };

    ghost view = { λ k. k.paths.items };

    ghost invariant = { λ k. k.names ≡ k.paths.items };
}

impl KnownPaths {
    pub(crate) fn new(alloc: Global) -> KnownPaths
        ensures { result ≡ [] }
    {
        KnownPaths {
            paths: Vec::new(alloc),
            names: KnownNames::new(alloc),
        }
    }

    pub(crate) fn has(&self, path: &Path) -> bool
        ensures { result ≡ is_one_of self.now path.now }
    {
        self.names.has(path.as_str())
    }

    pub(crate) fn push(&mut self, path: Path) -> Result<(), AllocError>
        ensures { OnOk result (self.new ≡ self.old ++ path ∷ []) }
    {
        self.paths.reserve(1)?;
        self.names.push(path.as_str())?;
        self.paths.push_reserved(path);
        Ok(())
    }

    pub(crate) fn into_vec(self) -> Vec<Path>
        ensures { result.items ≡ self }
    {
        self.paths
    }
}
