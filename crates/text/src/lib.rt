//! Lines of text: how an input is cut into lines, a line into fields and tokens, and how lines are
//! written on a page; and faults, which say what is wrong with a line and where.
#![tactic(auto)]

pub mod fault;
pub mod field;
pub mod figures;
pub mod frame;
pub mod head;
pub mod line;
pub mod page;
pub mod token;
pub mod verb;
