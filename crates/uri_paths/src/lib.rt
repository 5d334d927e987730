// Paths of files, and the `file:` URIs that name them.
#![tactic(auto)]

mod error;
mod parts;
mod path;
mod place;
mod uri;

pub use error::UriError;
pub use path::Path;
pub use place::{beside, roots_hold, under, within};
pub use uri::{path_of, paths_read_back, uri_of};
