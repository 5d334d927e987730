// Documents and the paths and texts that are remembered of them, with ample memory. What each call answers and leaves is in `doc_cases`.
use crate::places::path;
use doc_texts::{DocError, Docs, PathSet, PriorTexts};
use std::alloc::{AllocError, Global};
use std::process::Abort;
use std::test::Fail;
use text_lines::Encoding;
use uri_paths::Path;

/// Texts under `/p`.
fn docs_in_p(alloc: Global) -> Result<Docs, AllocError> {
    let root = path(alloc, "/p")?;
    Ok(Docs::new(alloc, Some(root)))
}

#[test]
fn names_are_those_of_the_variants(rt: HostRuntime) {
    let cases = [
        (DocError::AlreadyOpen, "AlreadyOpen"),
        (DocError::NotOpen, "NotOpen"),
        (DocError::Reversed, "Reversed"),
        (DocError::TooLong, "TooLong"),
        (DocError::TooManyFiles, "TooManyFiles"),
        (DocError::OutsideRoot, "OutsideRoot"),
        (DocError::TooMuchText, "TooMuchText"),
        (DocError::NotText, "NotText"),
        (DocError::NoMemory, "NoMemory"),
    ];
    for (error, name) in &cases {
        assert_eq!(rt; error.name(), *name);
    }
}

fn opens(rt: &impl Abort, docs: &mut Docs, path: &Path) -> Result<(), Fail> {
    docs.open_doc(path, "file:///p/%61", 1, "int a;")?;
    docs.change(path, 2, &[], Encoding::Utf16)?;
    assert!(rt; docs.uri(path) == Some("file:///p/%61"));
    assert!(rt; !docs.is_outside(path));
    Ok(())
}

#[test]
fn a_document_keeps_its_uri(rt: HostRuntime) -> Result<(), Fail> {
    let mut docs = docs_in_p(rt.alloc())?;
    let path = path(rt.alloc(), "/p/a")?;
    opens(&rt, &mut docs, &path)
}

fn remembers(
    rt: &impl Abort,
    docs: &mut Docs,
    prior: &mut PriorTexts,
    path: &Path,
) -> Result<(), Fail> {
    docs.load(path, Some(b"int a;"))?;
    prior.remember(docs, path)?;
    assert!(rt; !prior.is_changed(docs, path));
    docs.load(path, None)?;
    prior.remember(docs, path)?;
    assert!(rt; prior.is_changed(docs, path));
    docs.load(path, Some(b"int a;"))?;
    assert!(rt; !prior.is_changed(docs, path));
    Ok(())
}

#[test]
fn earlier_texts_are_kept(rt: HostRuntime) -> Result<(), Fail> {
    let mut docs = docs_in_p(rt.alloc())?;
    let path = path(rt.alloc(), "/p/a")?;
    let mut prior = PriorTexts::new(rt.alloc());
    remembers(&rt, &mut docs, &mut prior, &path)
}

fn ascends(rt: &impl Abort, paths: &[Path]) {
    let [first, second] = paths else {
        panic!(rt; "two paths")
    };
    assert_eq!(rt; first.as_str(), "/p/a");
    assert_eq!(rt; second.as_str(), "/p/b");
}

#[test]
fn paths_ascend(rt: HostRuntime) -> Result<(), Fail> {
    let mut set = PathSet::new(rt.alloc());
    for text in &["/p/b", "/p/a", "/p/b"] {
        set.insert(path(rt.alloc(), text)?)?;
    }
    ascends(&rt, set.paths()?.as_slice());
    Ok(())
}

fn remember(
    alloc: Global,
    docs: &Docs,
    prior: &mut PriorTexts,
    text: &str,
) -> Result<(), AllocError> {
    let path = path(alloc, text)?;
    prior.remember(docs, &path)?;
    Ok(())
}

fn remember_all(alloc: Global, prior: &mut PriorTexts) -> Result<(), AllocError> {
    let docs = Docs::new(alloc, None);
    for text in &["/p/b", "/p/a", "/p/b"] {
        remember(alloc, &docs, prior, text)?;
    }
    Ok(())
}

#[test]
fn remembered_paths_ascend(rt: HostRuntime) -> Result<(), Fail> {
    let mut prior = PriorTexts::new(rt.alloc());
    remember_all(rt.alloc(), &mut prior)?;
    ascends(&rt, prior.paths()?.as_slice());
    Ok(())
}
