//! The console: lines in, answers on a page, faults that say where.
#![tactic(auto)]

pub mod answer;
pub mod call;
pub mod order;
pub mod reply;
pub mod session;

pub use text::verb;
