// Planning and evaluating a circuit that is lent as a run of gate records.
#![tactic(auto)]

pub mod evaluate;
pub mod plan;

ghost use Rattle.std.specs.Prelude.{refl};
ghost use Rattle.circuit.specs.Circuits.{as_records};

use checks::lent::Gates;
use circuit::Gate;

// A circuit in a run of gate records.
#[derive(Clone, Copy)]
pub struct Records<'a> {
    pub gates: &'a [Gate],
}

impl<'a> Gates for Records<'a> {
    ghost lent = { λ c. as_records c.gates.now };

    ghost sized = { λ c e. refl };

    fn count(&self) -> usize {
        self.gates.len()
    }

    fn is_uneven(&self) -> bool {
        false
    }

    fn gate(&self, g: usize) -> Gate {
        self.gates[g]
    }
}
