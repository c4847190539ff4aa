// Calls as text: reading one into a store, what it then lends to the engine, and printing what the engine answered and left. For the
// program that compares.
#![tactic(auto)]

pub mod entry;
pub mod kind;
pub mod lent;
pub mod print;
pub mod read;
