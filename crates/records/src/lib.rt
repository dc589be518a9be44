// The records of every table, and the numbers by which tables, faults and refusals are known.
#![tactic(auto)]

pub mod env;
pub mod fault;
pub mod ids;
pub mod refusal;
pub mod result;
pub mod source;
