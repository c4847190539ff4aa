// What document 01's *Arithmetic* reduces and rounds by, in code: numbers modulo q and modulo Q, each of its own type, for every even modulus in its range, each proved
// to give the definitions' values. The passes over whole buffers, the tensor and the switch are crates of their own. What a function asks of q is its type
// (`scheme::Modulus`), which a contract sees as the number.
#![tactic(auto)]

pub mod big_residue;
mod centre;
pub mod residue;
pub mod round;
pub mod wide;
