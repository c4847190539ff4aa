// Calls on parameter sets, keys, ciphertexts and circuit files as text: does a call that was read, and puts what it answered and left. For
// the program that compares. Each buffer is an array of the size that docs/REPLAY.md gives: no heap.
#![tactic(auto)]

pub mod ciphers;
pub mod files;
pub mod gate;
pub mod key;
pub mod sets;
