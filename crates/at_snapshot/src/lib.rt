//! Atomic snapshots of a board: the counts of one prefix of its list, by loads of lengths alone.
//!
//! A collect loads each process's length once. Two equal collects in a row are the counts of what the seat had seen between them.
//! Where they differ, some process published; one that published twice since the first collect took a snapshot of its own in
//! that time, and the view of its last record serves. The way is that of Afek, Attiya, Dolev, Gafni, Merritt and Shavit ("Atomic
//! Snapshots of Shared Memory", Journal of the ACM, 1993).
//!
//! The definitions read best in this order: `Collected`, what loads of lengths tell; `Verdicts`, what a whole collect says;
//! `Snapping`, from one collect to the next; `Snapshots`, `Scans` and `Turns`, what callers see.
#![tactic(auto)]

mod collects;
mod scan;
mod snapshots;

pub use crate::collects::{Collects, Verdict, add_collect, compare};
pub use crate::scan::{Scan, Turn};
pub use crate::snapshots::snapshot;
