// A case: a root, what the words say, and the texts.
use percent_encoding::percent_decode;
use project_conf::{Conf, Define, Defines, IncludePaths, UnitConfs};
use shared_text::Name;
use std::alloc::{AllocError, Global};
use uri_paths::{Path, within};

#[derive(Drop)]
pub struct Case {
    pub root: Option<Path>,
    includes: Vec<Path>,
    defines: Vec<Define>,
    /// The paths of the texts, and whether each is an open document.
    pub texts: Vec<(Path, bool)>,
}

pub fn decoded(alloc: Global, text: &str) -> Result<String, AllocError> {
    let mut bytes = Vec::new(alloc);
    percent_decode(text.as_bytes()).append_to(&mut bytes)?;
    match String::from_utf8(bytes) {
        Ok(text) => Ok(text),
        Err(_) => Ok(String::new(alloc)),
    }
}

fn shared(alloc: Global, paths: &[Path]) -> Result<IncludePaths, AllocError> {
    let mut out = Vec::new(alloc);
    for path in paths {
        out.push(path.share()?)?;
    }
    Ok(IncludePaths::from_vec(out))
}

fn copied(alloc: Global, defines: &[Define]) -> Result<Defines, AllocError> {
    let mut out = Vec::new(alloc);
    for define in defines {
        if let Define::Set(name, text) = define {
            let name = name.share()?;
            let text = text.share()?;
            out.push(Define::Set(name, text))?;
        }
    }
    Ok(Defines::from_vec(out))
}

impl Case {
    pub fn new(alloc: Global) -> Case {
        Case {
            root: None,
            includes: Vec::new(alloc),
            defines: Vec::new(alloc),
            texts: Vec::new(alloc),
        }
    }

    pub fn take_root(&mut self, alloc: Global, root: &str) -> Result<(), AllocError> {
        self.root = Path::read(alloc, root)?;
        Ok(())
    }

    fn take_include(&mut self, alloc: Global, folder: &str) -> Result<(), AllocError> {
        if let Some(root) = &self.root {
            if let Some(folder) = within(alloc, root, folder)? {
                self.includes.push(folder)?;
            }
        }
        Ok(())
    }

    fn take_define(&mut self, alloc: Global, define: &str) -> Result<(), AllocError> {
        if let Some((name, text)) = define.split_once(' ') {
            let name = Name::from_str(alloc, name)?;
            let text = Name::from_str(alloc, text)?;
            self.defines.push(Define::Set(name, text))?;
        }
        Ok(())
    }

    fn take_text(&mut self, alloc: Global, path: &str, open: bool) -> Result<(), AllocError> {
        if let Some(path) = Path::read(alloc, path)? {
            self.texts.push((path, open))?;
        }
        Ok(())
    }

    pub fn take_line(&mut self, alloc: Global, line: &str) -> Result<(), AllocError> {
        if let Some(folder) = line.strip_prefix("include ") {
            return self.take_include(alloc, folder);
        }
        if let Some(define) = line.strip_prefix("define ") {
            return self.take_define(alloc, define);
        }
        if let Some(path) = line.strip_prefix("path ") {
            return self.take_text(alloc, path, false);
        }
        if let Some(path) = line.strip_prefix("open ") {
            return self.take_text(alloc, path, true);
        }
        Ok(())
    }

    /// How the units are read with this database, or none.
    pub fn conf(&self, alloc: Global, database: Option<UnitConfs>) -> Result<Conf, AllocError> {
        let includes = shared(alloc, self.includes.as_slice())?;
        let defines = copied(alloc, self.defines.as_slice())?;
        Ok(Conf {
            root: None,
            includes,
            defines,
            database,
        })
    }
}
