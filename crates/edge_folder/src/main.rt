// Lists a folder through the store over the file system, and says of each file, and of a few paths that have none, what
// is there.
#![tactic(auto)]

ghost use Rattle.std.specs.Prelude.{◌≡◌, ◌+◌, ◌<◌, ◌^◌, OnOk};

use io_edges::{DirStore, Found, Listed, Store, StoreFail};
use std::alloc::Global;
use std::io;

fn main(rt: HostRuntime) -> io::Result<()> {
    let mut store = DirStore::new(&rt);
    let mut paths = list(rt.alloc(), &mut store, "tree")?;
    paths.sort()?;
    for path in [
        "tree",
        "tree/sub",
        "tree/none.c",
        "tree/a.c/none.c",
        "none/none.c",
    ] {
        paths.push(String::from_str(rt.alloc(), path)?)?;
    }
    show(&rt, &mut store, &paths)
}

/// The paths of the files under a folder, of which none has a name that isn't UTF-8.
fn list(alloc: Global, store: &mut DirStore, root: &str) -> io::Result<Vec<String>>
    requires { store.old + 1 < 2 ^ 64 }
    ensures { OnOk result (store.new ≡ store.old) }
{
    let listed = store.list(alloc, root).map_err(failed)?;
    let mut paths = Vec::new(alloc);
    for file in listed {
        match file {
            Listed::File(path) => paths.push(path.into_string())?,
            Listed::NoText => return Err(io::Error::other("a name is no text")),
        }
    }
    Ok(paths)
}

/// Prints what the store has at each path.
fn show(rt: &HostRuntime, store: &mut DirStore, paths: &[String]) -> io::Result<()>
    requires { store.old + 1 < 2 ^ 64 }
{
    for path in paths {
        let path = path.as_str();
        match store.read(rt.alloc(), path).map_err(failed)? {
            Found::Absent => println!(rt; "{path} absent")?,
            Found::TooLarge => println!(rt; "{path} too large")?,
            Found::Bytes(bytes) => println!(rt; "{path} {} bytes", bytes.as_slice().len())?,
        }
    }
    Ok(())
}

fn failed(_: StoreFail) -> io::Error {
    io::Error::other("the store failed")
}
