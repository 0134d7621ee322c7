// The rules of a whole module over every history of calls, and the laws that follow from them.
#![tactic(auto)]

pub mod departures;
pub mod faults;
pub mod rooms;
