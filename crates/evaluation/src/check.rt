ghost use Rattle.std.specs.Prelude.{◌≡◌};
ghost use Rattle.refusal.specs.Answer.{answer_to};
ghost use Rattle.refusal.specs.First.{answer_of};
ghost use Rattle.circuit.specs.Plan.{plan_loans};
ghost use Rattle.circuit.specs.Evaluate.{evaluate_loans, evaluate_front};

use checks::are_bad_counts;
use checks::lent::Gates;
use keys::tests::{is_outside, is_outside_big, length_differs};
use refusal::{Params, Refusal, refuse_if};
use scheme::Modulus;

// The refusals of evaluation before planning's: 1, 2, 3, 6. What is left, 8, 9 and 10, is planning's.
pub fn check_evaluate<C: Gates>(
    p: Params,
    inputs: u32,
    circuit: &C,
    wires: &[i64],
    bounds: &[u32],
    key: &[i64],
    scratch: &[i64],
) -> Result<(), Refusal>
    ensures { answer_to result ≡ answer_of (evaluate_front (evaluate_loans (plan_loans p inputs (C.lent circuit.now) bounds.now) wires.now key.now scratch.now)) }
{
    refuse_if(!p.in_range(), Refusal::Parameters)?;
    let q = Modulus::of(p.q);
    let gates = circuit.count();
    refuse_if(are_bad_counts(inputs, gates), Refusal::Counts)?;
    let n = p.n as usize;
    let square = n * n;
    let count = inputs as usize;
    let total = count + gates;
    refuse_if(
        circuit.is_uneven()
            | length_differs(wires.len(), total * n)
            | length_differs(bounds.len(), total)
            | length_differs(key.len(), n * square)
            | length_differs(scratch.len(), square),
        Refusal::Length,
    )?;
    refuse_if(
        is_outside(q, &wires[..count * n]) | is_outside_big(q, key),
        Refusal::Entry,
    )
}
