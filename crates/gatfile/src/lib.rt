// The circuit file in code: its check, and planning on its bytes. Nothing here allocates: the table of bounds has room for the most wires.
#![tactic(auto)]

mod lent;
pub mod plan;
mod settle;

pub use lent::CircuitFile;
pub use settle::{WIRES, bounds};
