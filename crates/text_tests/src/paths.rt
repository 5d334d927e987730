// The paths and URIs that were worked out apart from this crate, and one call of each function with ample memory.
use crate::path_vectors::{BESIDE, READ, WITHIN, WRITTEN};
use crate::places::path;
use std::test::Fail;
use uri_paths::{Path, UriError, beside, path_of, under, uri_of, within};

/// Whether an answer is the path or the reason that is wanted.
fn answers(found: &Result<Path, UriError>, wanted: &Result<&str, UriError>) -> bool {
    match (found, wanted) {
        (Ok(path), Ok(text)) => path.as_str() == *text,
        (Err(reason), Err(other)) => reason == other,
        _ => false,
    }
}

/// Whether a path is the one that is wanted, or both are none.
fn is_found(found: &Option<Path>, wanted: &Option<&str>) -> bool {
    match (found, wanted) {
        (Some(path), Some(text)) => path.as_str() == *text,
        (None, None) => true,
        _ => false,
    }
}

#[test]
fn uris_name_their_paths(rt: HostRuntime) -> Result<(), Fail> {
    for (uri, wanted) in &READ {
        assert!(rt; answers(&path_of(rt.alloc(), uri), wanted));
    }
    Ok(())
}

#[test]
fn paths_have_their_uris(rt: HostRuntime) -> Result<(), Fail> {
    for (text, uri) in &WRITTEN {
        let path = path(rt.alloc(), text)?;
        assert_eq!(rt; uri_of(rt.alloc(), &path)?.as_str(), *uri);
        assert!(rt; answers(&path_of(rt.alloc(), uri), &Ok(text)));
    }
    Ok(())
}

#[test]
fn names_mean_their_paths(rt: HostRuntime) -> Result<(), Fail> {
    for (folder, name, wanted) in &WITHIN {
        let folder = path(rt.alloc(), folder)?;
        assert!(rt; is_found(&within(rt.alloc(), &folder, name)?, wanted));
    }
    for (file, name, wanted) in &BESIDE {
        let file = path(rt.alloc(), file)?;
        assert!(rt; is_found(&beside(rt.alloc(), &file, name)?, wanted));
    }
    Ok(())
}

/// Texts, and whether each is that of a path.
static TEXTS: [(&str, bool); 16] = [
    ("/", true),
    ("/a", true),
    ("/a/b.c", true),
    ("/...", true),
    ("/.a/..b", true),
    ("/a\u{0}b \\", true),
    ("", false),
    ("a", false),
    ("a/b", false),
    ("//", false),
    ("/a/", false),
    ("/a//b", false),
    ("/.", false),
    ("/a/./b", false),
    ("/a/..", false),
    ("../a", false),
];

#[test]
fn texts_are_read(rt: HostRuntime) -> Result<(), Fail> {
    for (text, is_path) in &TEXTS {
        let wanted = if *is_path { Some(*text) } else { None };
        assert!(rt; is_found(&Path::read(rt.alloc(), text)?, &wanted));
    }
    Ok(())
}

/// Roots, paths, and whether each path is under the root.
static UNDER: [(&str, &str, bool); 9] = [
    ("/", "/", true),
    ("/", "/a/b", true),
    ("/a/b", "/a/b", true),
    ("/a/b", "/a/b/c", true),
    ("/a/b", "/a/bc", false),
    ("/a/b", "/a", false),
    ("/a/b", "/", false),
    ("/a", "/b/a", false),
    ("/a/bc", "/a/b/c", false),
];

#[test]
fn paths_are_under_their_roots(rt: HostRuntime) -> Result<(), Fail> {
    for (root, other, wanted) in &UNDER {
        let root = path(rt.alloc(), root)?;
        let other = path(rt.alloc(), other)?;
        assert_eq!(rt; under(&root, &other), *wanted);
    }
    Ok(())
}

#[test]
fn copies_are_equal(rt: HostRuntime) -> Result<(), Fail> {
    let a = path(rt.alloc(), "/a")?;
    let slash = path(rt.alloc(), "/a/b")?;
    let dash = path(rt.alloc(), "/a-b")?;
    assert_eq!(rt; a.share()?, a);
    assert!(rt; a < dash && dash < slash);
    Ok(())
}
