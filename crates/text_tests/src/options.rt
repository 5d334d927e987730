// What is put in is what is lent.
use crate::places::path;
use project_conf::*;
use shared_text::Name;
use std::alloc::{AllocError, Global};
use std::process::Abort;
use uri_paths::Path;

fn folder(alloc: Global, text: &str) -> Result<Folder, AllocError> {
    let text = String::from_str(alloc, text)?;
    Ok(Folder::from_string(text))
}

fn push_set(
    all: &mut Vec<Define>,
    alloc: Global,
    name: &str,
    text: &str,
) -> Result<(), AllocError> {
    let name = Name::from_str(alloc, name)?;
    let text = Name::from_str(alloc, text)?;
    all.push(Define::Set(name, text))?;
    Ok(())
}

fn push_unset(all: &mut Vec<Define>, alloc: Global, name: &str) -> Result<(), AllocError> {
    let name = Name::from_str(alloc, name)?;
    all.push(Define::Unset(name))?;
    Ok(())
}

fn defines(alloc: Global) -> Result<Defines, AllocError> {
    let mut all = Vec::new(alloc);
    push_set(&mut all, alloc, "LEVEL", "2")?;
    push_unset(&mut all, alloc, "NDEBUG")?;
    Ok(Defines::from_vec(all))
}

fn is_set(define: &Define, name: &str, text: &str) -> bool {
    match define {
        Define::Set(n, t) => n.as_str() == name && t.as_str() == text,
        Define::Unset(_) => false,
    }
}

fn is_unset(define: &Define, name: &str) -> bool {
    match define {
        Define::Set(_, _) => false,
        Define::Unset(n) => n.as_str() == name,
    }
}

fn push_folder(all: &mut Vec<Folder>, alloc: Global, text: &str) -> Result<(), AllocError> {
    let folder = folder(alloc, text)?;
    all.push(folder)?;
    Ok(())
}

fn folders(alloc: Global) -> Result<Folders, AllocError> {
    let mut all = Vec::new(alloc);
    push_folder(&mut all, alloc, "include")?;
    push_folder(&mut all, alloc, "/usr/include")?;
    Ok(Folders::from_vec(all))
}

fn options(alloc: Global) -> Result<Options, AllocError> {
    let includes = folders(alloc)?;
    Ok(Options {
        includes,
        defines: defines(alloc)?,
        generate: Some(512),
    })
}

fn are_folders(rt: &impl Abort, folders: &[Folder]) {
    let [first, second] = folders else {
        panic!(rt; "two folders")
    };
    assert_eq!(rt; first.as_str(), "include");
    assert_eq!(rt; second.as_str(), "/usr/include");
}

fn are_defines(rt: &impl Abort, defines: &[Define]) {
    let [set, unset] = defines else {
        panic!(rt; "two definitions")
    };
    assert!(rt; is_set(set, "LEVEL", "2"));
    assert!(rt; is_unset(unset, "NDEBUG"));
}

#[test]
fn options_are_as_given(rt: HostRuntime) -> Result<(), AllocError> {
    let options = options(rt.alloc())?;
    are_folders(&rt, options.includes.as_slice());
    are_defines(&rt, options.defines.as_slice());
    assert_eq!(rt; options.generate, Some(512));
    Ok(())
}

#[test]
fn no_options_are_given(rt: HostRuntime) {
    let none = Options::none(rt.alloc());
    assert!(rt; none.includes.as_slice().is_empty());
    assert!(rt; none.defines.as_slice().is_empty());
    assert_eq!(rt; none.generate, None);
}

fn push_path(all: &mut Vec<Path>, alloc: Global, text: &str) -> Result<(), AllocError> {
    let path = path(alloc, text)?;
    all.push(path)?;
    Ok(())
}

fn include_paths(alloc: Global, texts: &[&str]) -> Result<IncludePaths, AllocError> {
    let mut all = Vec::new(alloc);
    for text in texts {
        push_path(&mut all, alloc, text)?;
    }
    Ok(IncludePaths::from_vec(all))
}

fn unit(alloc: Global) -> Result<UnitConf, AllocError> {
    let file = path(alloc, "/p/a.c")?;
    let includes = include_paths(alloc, &["/p"])?;
    Ok(UnitConf {
        file,
        includes,
        defines: defines(alloc)?,
    })
}

fn database(alloc: Global) -> Result<UnitConfs, AllocError> {
    let unit = unit(alloc)?;
    let mut all = Vec::new(alloc);
    all.push(unit)?;
    Ok(UnitConfs::from_vec(all))
}

fn conf(alloc: Global) -> Result<Conf, AllocError> {
    let root = path(alloc, "/p")?;
    let includes = include_paths(alloc, &["/q", "/"])?;
    Ok(Conf {
        root: Some(root),
        includes,
        defines: Defines::from_vec(Vec::new(alloc)),
        database: Some(database(alloc)?),
    })
}

fn is_unit(rt: &impl Abort, units: &[UnitConf]) {
    let [unit] = units else {
        panic!(rt; "one unit")
    };
    assert_eq!(rt; unit.file.as_str(), "/p/a.c");
    assert_eq!(rt; unit.includes.as_slice().len(), 1);
    assert_eq!(rt; unit.defines.as_slice().len(), 2);
}

#[test]
fn units_are_as_given(rt: HostRuntime) -> Result<(), AllocError> {
    let conf = conf(rt.alloc())?;
    assert_eq!(rt; conf.includes.as_slice().len(), 2);
    assert!(rt; conf.defines.as_slice().is_empty());
    let Some(database) = &conf.database else {
        panic!(rt; "a database")
    };
    is_unit(&rt, database.as_slice());
    Ok(())
}
