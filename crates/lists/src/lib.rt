// Two pieces for every entry type: the foremost entry of a list, and a journal in lent places.
#![tactic(auto)]

pub mod foremost;
pub mod journal;
#[cfg(test)]
mod tests;
