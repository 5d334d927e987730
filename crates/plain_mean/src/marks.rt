// Paths that are marked.
ghost use Rattle.std.specs.Prelude.{◌≡◌, ℕ, ◌||◌, false, List, bytes_eq, OnOk};
ghost use Rattle.std.specs.List.{list_any};
ghost use Rattle.plain_mean.specs.Marks.{is_marked};

use std::alloc::{AllocError, Global};
use std::collections::BTreeMap;
use uri_paths::Path;

/// A set of paths.
#[derive(Drop)]
pub(crate) struct Marks {
    paths: BTreeMap<Path, ()>,
}

impl Marks {
    pub fn new(alloc: Global) -> Marks
        ensures { (q : List ℕ) → is_marked result q ≡ false }
    {
        Marks {
            paths: BTreeMap::new(alloc),
        }
    }

    fn add(&mut self, path: Path) -> Result<(), AllocError>
        ensures { OnOk result ((q : List ℕ) → is_marked self.new q ≡ (bytes_eq q path || is_marked self.old q)) }
    {
        self.paths.insert(path, ())?;
        Ok(())
    }

    pub fn add_all(&mut self, paths: &[Path]) -> Result<(), AllocError>
        ensures { OnOk result ((q : List ℕ) → is_marked self.new q ≡ (is_marked self.old q || list_any (bytes_eq q) paths.now)) }
    {
        let mut rest = paths;
        'paths: while let Some((path, behind)) = rest.split_first() {
            rest = behind;
            self.add(path.share()?)?;
        }
        Ok(())
    }

    pub fn has(&self, path: &Path) -> bool
        ensures { result ≡ is_marked self.now path.now }
    {
        self.paths.contains_key(path)
    }
}
