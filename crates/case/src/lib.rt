// Reading case files: one line as a typed value.
#![tactic(auto)]

mod calls;
mod environment;
mod fields;
mod hosts;
mod kinds;
mod reading;
mod sources;

pub use reading::read;
