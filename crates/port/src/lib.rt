// The working port: a book, a rack and a placer together, proved to do what the rules of a module say after every history.
#![tactic(auto)]

mod numbers;
pub mod plan;
pub mod ports;
mod wires;
