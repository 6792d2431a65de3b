//! Where the program meets the outside: a room of named bytes, and a sink that takes bytes.
#![tactic(auto)]

mod host_room;
mod listed;
mod mem_room;
mod mem_sink;
mod room;
mod sink;
mod std_sink;
mod values;

pub use host_room::HostRoom;
pub use listed::Listed;
pub use mem_room::MemRoom;
pub use mem_sink::MemSink;
pub use room::{ReadErr, Room, WriteErr};
pub use sink::{Sink, SinkFailed, put_all};
pub use std_sink::StdSink;
pub use values::{Bytes, Text};

#[cfg(test)]
mod tests;
