//! The shelf that files are read from, and the sink that bytes are written to, each as a trait with
//! implementations in memory and over the real system. Over a shelf that tells its files, what
//! `fetch` reads is the file; over a sink that tells what it took, `put_all` adds the bytes given.
//! Each fails only with a counted fault, `fetch` also for a file that is not held or too long, or for
//! want of memory.
#![tactic(auto)]

mod dir_shelf;
mod faults;
mod held_files;
mod memory_shelf;
mod memory_sink;
mod reading;
mod shelf;
mod sink;
mod std_sink;
mod steady_shelf;
mod steady_sink;
mod writing;

pub use dir_shelf::DirShelf;
pub use memory_shelf::MemoryShelf;
pub use memory_sink::MemorySink;
pub use reading::{FILE_MAX, FetchError, fetch};
pub use shelf::{ReadFailed, Shelf};
pub use sink::{Sink, WriteFailed};
pub use std_sink::StdSink;
pub use steady_shelf::SteadyShelf;
pub use steady_sink::SteadySink;
pub use writing::{WriteFault, put_all};
