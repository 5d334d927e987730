// Units with what is told of them, before and after an edit.
use crate::reading::{kind, occurrence};
use rename_core::{FileKinds, UnitView};
use scope_tables::Occ;
use shared_list::Listing;
use shared_text::Name;
use std::alloc::{AllocError, Global};
use tok_data::FileId;
use uri_paths::Path;

/// A unit.
#[derive(Drop)]
pub struct Told {
    path: Path,
    kinds: Vec<FileKinds>,
    occs: Vec<Occ>,
}

/// The units in the order in which they were told.
#[derive(Drop)]
pub struct Units {
    units: Vec<Told>,
}

impl Units {
    pub fn new(alloc: Global) -> Units {
        Units {
            units: Vec::new(alloc),
        }
    }

    /// No units again.
    pub fn forget(&mut self) {
        self.units.clear();
    }

    /// A unit more, where the text is that of a path.
    pub fn begin(&mut self, alloc: Global, path: &str) -> Result<(), AllocError> {
        let Some(path) = Path::read(alloc, path)? else {
            return Ok(());
        };
        self.units.push(Told {
            path,
            kinds: Vec::new(alloc),
            occs: Vec::new(alloc),
        })?;
        Ok(())
    }

    /// An occurrence more in the last unit.
    pub fn add_occ(&mut self, alloc: Global, line: &str) -> Result<(), AllocError> {
        let Some(unit) = self.units.last_mut() else {
            return Ok(());
        };
        if let Some(occ) = occurrence(alloc, line)? {
            unit.occs.push(occ)?;
        }
        Ok(())
    }

    /// The kinds of a text's tokens, told by the last unit.
    pub fn add_kinds(&mut self, alloc: Global, line: &str) -> Result<(), AllocError> {
        let Some(unit) = self.units.last_mut() else {
            return Ok(());
        };
        let told = kinds_told(alloc, line)?;
        unit.kinds.push(told)?;
        Ok(())
    }

    /// The occurrences of each unit.
    pub fn occs(&self, alloc: Global) -> Result<Vec<&[Occ]>, AllocError> {
        let mut lists = Vec::new(alloc);
        for unit in &self.units {
            lists.push(unit.occs.as_slice())?;
        }
        Ok(lists)
    }

    /// A view of each unit.
    pub fn views(&self, alloc: Global) -> Result<Vec<UnitView<'_>>, AllocError> {
        let mut views = Vec::new(alloc);
        for unit in &self.units {
            views.push(UnitView {
                unit: &unit.path,
                kinds: unit.kinds.as_slice(),
                occs: unit.occs.as_slice(),
            })?;
        }
        Ok(views)
    }
}

fn kinds_told(alloc: Global, line: &str) -> Result<FileKinds, AllocError> {
    let mut words = line.split_ascii_whitespace().skip(1);
    let name = Name::from_str(alloc, words.next().unwrap_or(""))?;
    let mut kinds = Vec::new(alloc);
    for word in words {
        kinds.push(kind(word))?;
    }
    Ok(FileKinds {
        file: FileId::from_name(name),
        kinds: Listing::from_vec(kinds),
    })
}
