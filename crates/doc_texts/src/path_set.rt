// Sets of paths.
ghost use Rattle.std.specs.Prelude.{◌≡◌, OnOk, OnErr, IfOk};
ghost use Rattle.std.specs.FinMap.{empty, insert, keys};

use std::alloc::{AllocError, Global};
use std::collections::BTreeMap;
use std::marker::Model;
use uri_paths::Path;

/// A set of paths. Contracts see it as a finite map with nothing at each path.
#[derive(Drop)]
pub struct PathSet {
    alloc: Global,
    paths: BTreeMap<Path, ()>,
}

impl Model for PathSet {
    ghost use base.Stored.{coded_unit};
    ghost use Rattle.std.specs.Coded.{coded_ℕ, coded_list};
    ghost use Rattle.std.specs.FinMap.{from_entries, code};
    ghost use Rattle.doc_texts.specs.Texts as texts;

    ghost Value = { texts.PathSet };

    ghost coded = { code (coded_list coded_ℕ) coded_unit };

    ghost view = { λ set. from_entries set.paths.entries };
}

impl PathSet {
    /// The set of no paths. It takes no memory.
    pub fn new(alloc: Global) -> PathSet
        ensures { result ≡ empty }
    {
        PathSet {
            alloc,
            paths: BTreeMap::new(alloc),
        }
    }

    /// Adds a path, unless it is there. It costs a logarithm of the number of paths.
    pub fn insert(&mut self, path: Path) -> Result<(), AllocError>
        ensures ok { OnOk result (self.new ≡ insert self.old path tt) }
        ensures kept { OnErr result (self.new ≡ self.old) }
    {
        self.paths.insert(path, ())?;
        Ok(())
    }

    /// The paths in byte order.
    pub fn paths(&self) -> Result<Vec<Path>, AllocError>
        ensures { IfOk result (λ paths. paths.items ≡ keys self.now) }
    {
        let mut paths = Vec::new(self.alloc);
        for path in self.paths.keys() {
            paths.push(path.share()?)?;
        }
        Ok(paths)
    }
}
