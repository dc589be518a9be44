// Elaboration of rules: from tables of any content to typed rules, one stage after the other.
#![tactic(auto)]

mod closing;
mod converters;
mod faults;
mod opening;
mod stages;

pub use opening::open;
pub use stages::{Opening, Ruling, Stage, TakesConverters, TakesRules};
