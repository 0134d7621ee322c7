// Placers: which cycle of its class a frame gets, by its time or by counting.
#![tactic(auto)]

pub mod by_count;
pub mod by_rule;
pub mod by_time;
pub mod faults;
pub mod placer;
pub mod table;
pub mod terms;
