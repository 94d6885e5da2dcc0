//! Files and streams of any kind.

use at_io::{Shelf, Sink, fetch, put_all};
use std::alloc::Global;

/// Copies a file from a shelf to a sink, and answers whether it could.
pub fn copy_file<F: Shelf, O: Sink>(
    alloc: Global,
    shelf: &mut F,
    name: &str,
    sink: &mut O,
) -> bool {
    let mut bytes = Vec::new(alloc);
    fetch(shelf, name, &mut bytes).is_ok() && put_all(sink, bytes.as_slice()).is_ok()
}
