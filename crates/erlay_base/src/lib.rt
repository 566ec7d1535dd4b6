//! The outside as values: where bytes come from and go to, with calls that may fail, and fakes of both for tests and proofs.
#![tactic(auto)]

mod calls;
mod dir_shelf;
mod loading;
mod mem_shelf;
mod mem_sink;
mod mem_source;
mod mem_wire;
mod reading;
mod shelf;
mod sink;
mod source;
mod std_streams;
mod tcp_wire;
mod wire;
mod writing;

pub use base_types::{Bytes, Elems, Failed, Hash32, Hashes, Kind, OutOfMemory, Shorts};
pub use dir_shelf::DirShelf;
pub use loading::load_all;
pub use mem_shelf::MemShelf;
pub use mem_sink::MemSink;
pub use mem_source::MemSource;
pub use mem_wire::MemWire;
pub use reading::{ReadEnd, read_all};
pub use shelf::Shelf;
pub use sink::Sink;
pub use source::Source;
pub use std_streams::{StdSink, StdSource};
pub use tcp_wire::TcpWire;
pub use wire::Wire;
pub use writing::write_all;
