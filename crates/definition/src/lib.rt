// Definitions as trees of the source list: which parts are lawful, and what a lawful one says.
#![tactic(auto)]

mod check;
mod converter;
mod grammar;
mod named_pieces;
mod pieces;
mod rule;
mod siblings;
mod source_tree;

pub use converter::{Converter, Ident};
pub use grammar::Kind;
pub use source_tree::SourceTree;
