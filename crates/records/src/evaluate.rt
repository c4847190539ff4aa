ghost use Rattle.refusal.specs.Answer.{answer_to};
ghost use Rattle.circuit.specs.Circuits.{as_records};
ghost use Rattle.circuit.specs.Plan.{plan_loans};
ghost use Rattle.circuit.specs.Evaluate.{evaluate_loans, EvaluatePromise};

use crate::Records;
use circuit::Gate;
use evaluation::evaluate;
use refusal::{Params, Refusal};

// Evaluation of a run of gate records: the wires of the gates behind those of the inputs, and their bounds; the scratch is zeroed. Refusals
// 1, 2, 3, 6, 8, 9, 10; the place is the first offending gate for 9 and 10.
pub fn evaluate_gates(
    p: Params,
    inputs: u32,
    gates: &[Gate],
    wires: &mut [i64],
    bounds: &mut [u32],
    key: &[i64],
    scratch: &mut [i64],
) -> Result<(), Refusal>
    ensures { EvaluatePromise (evaluate_loans (plan_loans p inputs (as_records gates.now) bounds.old) wires.old key.now scratch.old) (answer_to result) wires.new bounds.new scratch.new }
{
    evaluate(p, inputs, &Records { gates }, wires, bounds, key, scratch)
}
