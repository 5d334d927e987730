// Each public call of the ends in memory once.
ghost use Rattle.std.specs.Prelude.{◌≡◌, length, IfOk};

use io_edges::{
    Failed, FileBytes, Found, Listed, MemSink, MemStore, MemWire, PathText, Sink, Store, StoreFail,
    Wire,
};
use std::alloc::{AllocError, Global};
use std::test::Fail;

#[test]
fn sink_takes_few_bytes_and_fails_where_told(rt: HostRuntime) -> Result<(), Fail> {
    let alloc = rt.alloc();
    let mut sink = MemSink::new(alloc, 3, [2].to_vec(alloc)?)?;
    for (bytes, want) in [
        (b"hello".as_slice(), Ok(3)),
        (b"lo".as_slice(), Err(Failed)),
        (b"lo".as_slice(), Ok(2)),
    ] {
        assert!(rt; !bytes.is_empty());
        assert_eq!(rt; sink.write(bytes), want);
    }
    assert_eq!(rt; sink.written(), b"hello".as_slice());
    Ok(())
}

/// So many bytes.
fn filled(alloc: Global, len: usize) -> Result<Vec<u8>, AllocError>
    ensures { IfOk result (λ v. length v.items ≡ len) }
{
    vec![in alloc; b'x'; len]
}

#[test]
fn sink_has_room_for_four_mebibytes(rt: HostRuntime) -> Result<(), Fail> {
    let alloc = rt.alloc();
    let bytes = filled(alloc, 4_194_302)?;
    let mut sink = MemSink::new(alloc, 4_194_304, Vec::new(alloc))?;
    for want in [Ok(4_194_302), Ok(2), Err(Failed), Err(Failed)] {
        assert_eq!(rt; sink.write(&bytes), want);
    }
    assert_eq!(rt; sink.written().len(), 4_194_304);
    Ok(())
}

#[test]
fn wire_gives_a_piece_per_read(rt: HostRuntime) -> Result<(), Fail> {
    let alloc = rt.alloc();
    let pieces = some_pieces(alloc)?;
    assert!(rt; MemWire::fits(&pieces));
    let mut wire = MemWire::new(
        alloc,
        pieces,
        [2].to_vec(alloc)?,
        MemSink::new(alloc, 3, Vec::new(alloc))?,
    )?;
    let mut into = [0; 3];
    for (want, bytes) in [
        (Ok(3), b"abc".as_slice()),
        (Err(Failed), b"abc".as_slice()),
        (Ok(2), b"dec".as_slice()),
        (Ok(1), b"fec".as_slice()),
        (Ok(0), b"fec".as_slice()),
    ] {
        assert_eq!(rt; wire.read(&mut into), want);
        assert_eq!(rt; into.as_slice(), bytes);
    }
    assert_eq!(rt; wire.write(b"reply"), Ok(3));
    assert_eq!(rt; wire.sink().written(), b"rep".as_slice());
    Ok(())
}

fn some_pieces(alloc: Global) -> Result<Vec<Vec<u8>>, AllocError> {
    let mut pieces = Vec::new(alloc);
    for piece in [
        b"".as_slice(),
        b"abcde".as_slice(),
        b"".as_slice(),
        b"f".as_slice(),
        b"".as_slice(),
    ] {
        pieces.push(Vec::from_slice(alloc, piece)?)?;
    }
    Ok(pieces)
}

#[test]
fn store_lists_its_files(rt: HostRuntime) -> Result<(), Fail> {
    let alloc = rt.alloc();
    let mut store = MemStore::new(alloc, some_files(alloc)?, Vec::new(alloc));
    for (root, want) in [
        ("/a/b", ["/a/b/x.c", "/a/b"].as_slice()),
        ("/a/bc", ["/a/bc/y.c"].as_slice()),
        ("/c", [].as_slice()),
        ("/", ["/big", "/a/bc/y.c", "/a/b/x.c", "/a/b"].as_slice()),
    ] {
        let listed = store.list(alloc, root)?;
        assert!(rt; is_listing(&listed, want), "under {root}");
    }
    Ok(())
}

#[test]
fn store_reads_its_files(rt: HostRuntime) -> Result<(), Fail> {
    let alloc = rt.alloc();
    let mut store = MemStore::new(alloc, some_files(alloc)?, [3].to_vec(alloc)?);
    for (path, want) in [
        ("/a/b/x.c", Some("new")),
        ("/big", Some("too large")),
        ("/a/b", None),
        ("/a", Some("absent")),
        ("/a/b", Some("b")),
    ] {
        let found = store.read(alloc, path);
        assert!(rt; is_found(&found, want), "at {path}");
    }
    Ok(())
}

fn some_files(alloc: Global) -> Result<Vec<(String, Vec<u8>)>, AllocError> {
    let mut files = Vec::new(alloc);
    files.push((String::from_str(alloc, "/big")?, filled(alloc, 4_194_305)?))?;
    for (path, bytes) in [
        ("/a/b/x.c", "old"),
        ("/a/bc/y.c", "y"),
        ("/a/b/x.c", "new"),
        ("/a/b", "b"),
    ] {
        files.push((
            String::from_str(alloc, path)?,
            Vec::from_slice(alloc, bytes.as_bytes())?,
        ))?;
    }
    Ok(files)
}

/// Whether a listing has these paths, in order.
fn is_listing(listed: &[Listed], want: &[&str]) -> bool {
    listed.len() == want.len()
        && listed
            .iter()
            .zip(want)
            .all(|(file, path)| is_path(file, path))
}

fn is_path(file: &Listed, path: &str) -> bool {
    match file {
        Listed::File(text) => text.as_str() == path,
        Listed::NoText => false,
    }
}

/// Whether an answer has this text, where an answer that isn't bytes counts as what it says, and a fault as None.
fn is_found(found: &Result<Found, StoreFail>, want: Option<&str>) -> bool {
    match (found, want) {
        (Err(StoreFail::Failed), None) => true,
        (Ok(Found::Absent), Some(want)) => want == "absent",
        (Ok(Found::TooLarge), Some(want)) => want == "too large",
        (Ok(Found::Bytes(bytes)), Some(want)) => bytes.as_slice() == want.as_bytes(),
        _ => false,
    }
}

#[test]
fn small_types_give_back_what_they_are_made_of(rt: HostRuntime) -> Result<(), Fail> {
    let alloc = rt.alloc();
    let bytes = FileBytes::from_vec(b"ab".to_vec(alloc)?);
    assert_eq!(rt; bytes.clone()?.into_vec().as_slice(), bytes.as_slice());
    let path = PathText::from_string(String::from_str(alloc, "/a")?);
    assert_eq!(rt; path.clone()?.into_string().as_str(), path.as_str());
    Ok(())
}
