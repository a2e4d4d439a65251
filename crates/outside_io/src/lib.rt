//! Input and output as the server sees them: a source and a sink of bytes that count their faults, both over memory and over
//! std's readers and writers, and functions that read a whole input and write a whole output.
#![tactic(auto)]

mod adapters;
mod call_plan;
mod memory_sink;
mod memory_source;
mod traits;
mod whole;

pub use adapters::{ReadSource, WriteSink};
pub use memory_sink::MemorySink;
pub use memory_source::MemorySource;
pub use traits::{Failed, Sink, Source};
pub use whole::{PIECE_BYTES, ReadEnd, read_to_end, write_all};
