// The reservation book of a port: bins needed, settings, admission, and the rows of 128 streams.
#![tactic(auto)]

pub mod faults;
pub mod frames;
pub mod ledger;
pub mod rows;
pub mod setup;
pub mod ticks;
