// Words and numbers of a line.
#![tactic(auto)]

mod cutting;
mod numerals;

pub use cutting::{Word, is_skipped, printable, words};
pub use numerals::{NumberFault, integer, number};
