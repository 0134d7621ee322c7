// A line of modules, and paths that are booked in all of their modules or in none.
#![tactic(auto)]

pub mod banks;
pub mod faults;
pub mod legs;
pub mod modules;
pub mod paths;
