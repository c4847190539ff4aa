ghost use Rattle.refusal.specs.Answer.{answer_to};
ghost use Rattle.circuit.specs.Circuits.{as_records};
ghost use Rattle.circuit.specs.Plan.{plan_loans, PlanPromise};

use crate::Records;
use circuit::Gate;
use planning::plan;
use refusal::{Params, Refusal};

// Planning of a run of gate records: the bounds of the gates behind those of the inputs. Refusals 1, 2, 3, 8, 9, 10; the place is the first
// offending gate for 9 and 10.
pub fn plan_gates(p: Params, inputs: u32, gates: &[Gate], bounds: &mut [u32]) -> Result<(), Refusal>
    ensures { PlanPromise (plan_loans p inputs (as_records gates.now) bounds.old) (answer_to result) bounds.new }
{
    plan(p, inputs, &Records { gates }, bounds)
}
