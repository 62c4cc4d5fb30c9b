//! Runs of the board, the console and the choosers.
mod asks;
mod audits;
mod chance;
mod choosers;
mod ledger;
mod lines;
mod prefixed;
mod racks;
mod reading;
mod refusals;
mod runs;
mod survey;
