// A circuit as it is lent, and the checks of its gates, counts and bounds: document 01's *Circuits*. What each answers is defined in the crate circuit.
#![tactic(auto)]

ghost use Rattle.std.specs.Prelude.{◌≡◌, not};
ghost use Rattle.whole.specs.Lists.{every};
ghost use Rattle.scheme.specs.Arithmetic.{fits};
ghost use Rattle.circuit.specs.Circuits.{bad_counts, wrong_gate, wrong_gates};
ghost use Rattle.checks.specs.Ready.{CircuitReady, IsFirstTrue};

pub mod lent;

use circuit::Gate;
use lent::Gates;

// 2: the count of inputs or gates is outside its range.
#[tactic(auto, unfolding(circuit::specs::Circuits::bad_counts))]
pub fn are_bad_counts(inputs: u32, gates: usize) -> bool
    ensures { result ≡ bad_counts inputs gates }
{
    !(1..=1024).contains(&inputs) | !(1..=4096).contains(&gates)
}

// 8: the bound of some input does not fit the budget.
pub fn is_some_over(q: u32, bounds: &[u32]) -> bool
    ensures { result ≡ not (every (fits q) bounds.now) }
{
    bounds.iter().any(|bound| q as u64 <= 4 * (*bound as u64))
}

// 9: whether a gate that makes the wire `own` is wrong in kind, operand or NOT's right. The kind is read as the number that is lent, since
// `Kind` has no value for a wrong one, and there is no branch on it, which no processor can foretell; NOT's right is held to `own` too,
// since 0 lies below the wire of any gate whose left does.
pub fn is_wrong(own: u32, gate: Gate) -> bool
    ensures { result ≡ wrong_gate own gate }
{
    (2 < gate.kind)
        | (own <= gate.left)
        | (own <= gate.right)
        | ((gate.kind == 2) & !(gate.right == 0))
}

// The first wrong gate, if there is one. Gate 0 makes the wire `inputs`.
pub fn first_wrong<C: Gates>(inputs: u32, circuit: &C) -> Option<usize>
    requires { CircuitReady inputs (C.lent circuit.now) }
    ensures { IsFirstTrue (wrong_gates inputs (C.lent circuit.now).gates) result }
{
    // By number: a circuit gives its gates so, and the number is what is answered.
    for g in 0..circuit.count() {
        if is_wrong(inputs + g as u32, circuit.gate(g)) {
            return Some(g);
        }
    }
    None
}
