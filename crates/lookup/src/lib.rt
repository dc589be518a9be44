// Looking up what names stand for: symbols by their bytes; types, constants and terms by their symbol; converters by their pair of types.
// Each looks through its table from the front: a map would claim memory after the tables are made.
#![tactic(auto)]

mod by_name;
mod converters;
mod interning;
mod names;
mod symbols;

pub use by_name::{term_by_name, type_by_name};
pub use converters::converter;
pub use interning::intern;
pub use names::symbol;
pub use symbols::{constant_type, term_named, type_named};
