// The outside of the server: where bytes come from and go to, and where files are read. Each end is a trait that
// tells its content, where it can, and counts its faults.
#![tactic(auto)]

mod bytes;
mod dir_store;
mod ends;
mod mem_sink;
mod mem_store;
mod mem_wire;
mod pieces;
mod std_ends;
mod store_fail;

pub use bytes::{FileBytes, PathText};
pub use dir_store::DirStore;
pub use ends::{Failed, Found, Listed, Mark, Sink, Store, StoreFail, Wire};
pub use mem_sink::MemSink;
pub use mem_store::MemStore;
pub use mem_wire::MemWire;
pub use std_ends::{StdWire, StderrSink};
