//! The edge to the outside: stores of files, sources and sinks of bytes. Every failure is counted by
//! the object that met it, so that a caller can prove why an answer came.
#![tactic(auto)]

mod fault;
mod memory_sink;
mod memory_source;
mod memory_store;
mod refused;
mod sink;
mod source;
mod store;
mod system;
mod word;

pub use fault::Failed;
pub use memory_sink::MemSink;
pub use memory_source::MemSource;
pub use memory_store::{MemStore, NamedFile};
pub use sink::{Sink, WriteFault, put_all};
pub use source::{ReadEnd, Source, read_all};
pub use store::{Fetch, Store};
pub use system::{FileStore, ReaderSource, StderrSink, StdinSource, StdoutSink, WriterSink};
pub use word::Word;
