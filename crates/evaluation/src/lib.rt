// Evaluating a circuit of XOR, AND and NOT gates on encrypted wires. The loans wires, bounds, key and scratch are the paper's and C's, one by one, and no struct: the
// promise (`EvaluateLoans`) names each.
#![tactic(auto)]

mod check;

ghost use Rattle.refusal.specs.Answer.{answer_to};
ghost use Rattle.circuit.specs.Plan.{plan_loans};
ghost use Rattle.circuit.specs.Evaluate.{evaluate_loans, EvaluatePromise};

use check::check_evaluate;
use checks::lent::Gates;
use planning::plan;
use refusal::{Params, Refusal};
use working::work;

// Evaluation: the wires of the gates behind those of the inputs, and their bounds; the scratch is zeroed. Refusals 1, 2, 3, 6, 8, 9, 10;
// the place is the first offending gate for 9 and 10. The budget is settled by planning before any wire is written.
pub fn evaluate<C: Gates>(
    p: Params,
    inputs: u32,
    circuit: &C,
    wires: &mut [i64],
    bounds: &mut [u32],
    key: &[i64],
    scratch: &mut [i64],
) -> Result<(), Refusal>
    ensures { EvaluatePromise (evaluate_loans (plan_loans p inputs (C.lent circuit.now) bounds.old) wires.old key.now scratch.old) (answer_to result) wires.new bounds.new scratch.new }
{
    check_evaluate(p, inputs, circuit, wires, bounds, key, scratch)?;
    plan(p, inputs, circuit, bounds)?;
    work(p, inputs as usize, circuit, wires, key, scratch);
    Ok(())
}
