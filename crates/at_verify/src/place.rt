//! Where a text parts from the reports.

/// The text's first bytes are those of a report, and then no report goes on as it does: of the bytes that were expected there the rest is left.
#[derive(Clone, Copy)]
pub(crate) struct Place {
    pub(crate) at: usize,
    pub(crate) rest: usize,
}
