// The loops of an AND gate for a C program to time, and whose object code is counted: a call tests its loans once, then runs one function of `passes`, `tensor` or
// `switch` as often as asked. What it answers is a number, since C takes it, and each call has its own name, since C calls it so (bench/rattle.h). No
// part of the engine.
#![tactic(auto)]

mod modulus;
pub mod range;
pub mod switches;
pub mod tensors;
