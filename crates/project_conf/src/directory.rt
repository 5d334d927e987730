// A folder with what texts of a database mean in it: many entries have the same ones.
ghost use Rattle.std.specs.Prelude.{◌≡◌, ℕ, List, Option, Some, IfOk};
ghost use Rattle.uri_paths.specs.Paths.{within};
ghost use Rattle.project_conf.specs.Known.{Knows};
ghost use Rattle.project_conf.specs.Lists.{define_in};

use crate::lists::define_in;
use crate::options::Define;
use std::alloc::{AllocError, Global};
use std::collections::HashMap;
use std::marker::Model;
use uri_paths::{Path, within};

/// A folder, with the paths and the definitions that texts were found to mean. Contracts see the folder.
#[derive(Drop)]
pub(crate) struct Directory {
    alloc: Global,
    path: Path,
    folders: HashMap<String, Path>,
    defines: HashMap<String, Define>,
}

impl Model for Directory {
    ghost use Rattle.std.specs.Prelude.{ℕ, List};
    ghost use Rattle.uri_paths.specs.Paths.{within};
    ghost use Rattle.project_conf.specs.Known.{Knows};
    ghost use Rattle.project_conf.specs.Lists.{define_in};

    ghost Value = { List ℕ };

    ghost view = { λ d. d.path };

    ghost invariant = { λ d. Knows (within d.path) d.folders × Knows define_in d.defines };
}

// Keeps what a text means.
fn keep<V: Drop>(
    alloc: Global,
    map: &mut HashMap<String, V>,
    text: &str,
    value: V,
) -> Result<(), AllocError>
    ensures { (meaning : List ℕ → Option V) → Knows meaning map.old → meaning text.now ≡ Some value → Knows meaning map.new }
{
    let key = String::from_str(alloc, text)?;
    map.insert(key, value).map_err(AllocError::from)?;
    Ok(())
}

impl Directory {
    pub(crate) fn new(alloc: Global, path: Path) -> Directory
        ensures { result ≡ path }
    {
        Directory {
            alloc,
            path,
            folders: HashMap::new(alloc),
            defines: HashMap::new(alloc),
        }
    }

    pub(crate) fn path(&self) -> &Path
        ensures { result.now ≡ self.now }
    {
        &self.path
    }

    /// Goes to another folder. What texts mean there isn't known yet, where it is another one.
    pub(crate) fn enter(&mut self, path: Path)
        ensures { self.new ≡ path }
    {
        if self.path == path {
            return;
        }
        self.path = path;
        self.folders.clear();
    }

    /// The path that a text means in the folder, None where it goes above `/`: found anew where the text wasn't asked for before.
    pub(crate) fn within(&mut self, text: &str) -> Result<Option<Path>, AllocError>
        ensures path { IfOk result (λ path. path ≡ within self.old text.now) }
        ensures same { self.new ≡ self.old }
    {
        if let Some(path) = self.folders.get(text) {
            let path = path.share()?;
            return Ok(Some(path));
        }
        let Some(path) = within(self.alloc, &self.path, text)? else {
            return Ok(None);
        };
        let kept = path.share()?;
        keep(self.alloc, &mut self.folders, text, kept)?;
        Ok(Some(path))
    }

    /// The definition that a text says, None where its name is no identifier: made anew where the text wasn't asked for before.
    pub(crate) fn define(&mut self, text: &str) -> Result<Option<Define>, AllocError>
        ensures define { IfOk result (λ define. define ≡ define_in text.now) }
        ensures same { self.new ≡ self.old }
    {
        if let Some(define) = self.defines.get(text) {
            let define = define.share()?;
            return Ok(Some(define));
        }
        let Some(define) = define_in(self.alloc, text)? else {
            return Ok(None);
        };
        let kept = define.share()?;
        keep(self.alloc, &mut self.defines, text, kept)?;
        Ok(Some(define))
    }
}
