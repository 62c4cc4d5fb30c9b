//! Sheets: the grants that are out, as billing reads them.
#![tactic(auto)]

pub mod grant;
mod lines;
pub mod read;
pub mod write;
