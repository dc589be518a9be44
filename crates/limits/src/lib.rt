// Tests of what rules and opening work with, at the limits that matter. They have a crate of their own, since a crate with tests is proved twice.
#![tactic(auto)]

#[cfg(test)]
mod making;
#[cfg(test)]
mod rules;
#[cfg(test)]
mod tests;
