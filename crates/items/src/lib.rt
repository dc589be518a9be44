// What a line of a case file says, and the order that lines may stand in.
#![tactic(auto)]

mod faults;
mod items;
mod places;

pub use faults::Malformed;
pub use items::{HostKind, Item, Literal, RowKind};
pub use places::Place;
