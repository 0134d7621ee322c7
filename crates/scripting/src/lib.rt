// What the two programs share: the lines of a script, the calls on whatever has a book, and what is printed.
#![tactic(auto)]

pub mod answers;
pub mod bench;
pub mod desk;
pub mod notes;
pub mod printing;
pub mod script;
pub mod words;
