// Racks: stores of loads in numbered bins, each first in, first out. Two stores of places keep one meaning.
#![tactic(auto)]

pub mod calls;
pub mod cells;
mod chains;
pub mod faults;
pub mod plan;
pub mod rack;
mod rings;
pub mod rows;
pub mod slots;
pub mod store;
