//! A run by a schedule as one page: a sentence about its payments, a picture of its turns, a table of its calls, and its journal. The page
//! stands alone: it has no script, and names no other file.
//!
//! `page_text` makes its bytes, which its definition gives of the book, the names, the files and the run. A name is made of small letters,
//! digits and hyphens, so it stands in the page as it is.
#![tactic(auto)]

mod arrows;
mod bars;
mod curves;
mod decisions;
mod files;
mod loads;
mod marks;
mod page;
mod parts;
mod spans;
mod tables;
mod turns;

pub use crate::page::page_text;
