// Paths for the tests.
use std::alloc::{AllocError, Global};
use uri_paths::Path;

/// The path with a text that is known to be one's.
pub fn path(alloc: Global, text: &str) -> Result<Path, AllocError> {
    match Path::read(alloc, text)? {
        Some(path) => Ok(path),
        None => Err(AllocError),
    }
}
