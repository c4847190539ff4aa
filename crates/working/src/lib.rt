// Working the gates of a circuit that nothing refuses: each gate's own stretch of the wires is lent to XOR, AND or NOT.
#![tactic(auto)]

ghost use Rattle.std.specs.Prelude.{◌≡◌, ◌+◌, ◌*◌, pos, take, drop, replicate};
ghost use mathlib.Core.List.{◌++◌, flatten};
ghost use Rattle.whole.specs.Lists.{cut};
ghost use Rattle.scheme.specs.Arithmetic.{XOR, NOT, AND};
ghost use Rattle.circuit.specs.Circuits.{by_kind, gate_wire, wires_of};
ghost use Rattle.working.specs.Ready.{EvaluateReady, WorkGateReady, MakeWireReady};

use checks::lent::Gates;
use circuit::Gate;
use circuit::kind::Kind;
use gates::{and_into, not_into, xor_into};
use refusal::Params;
use scheme::Modulus;

// What a gate makes of its operands c and d, into the stretch of its own wire; NOT takes c alone.
#[tactic(auto, using(circuit::specs::Kind::by_kind_of))]
fn make_wire(
    p: Params,
    kind: u32,
    c: &[i64],
    d: &[i64],
    key: &[i64],
    scratch: &mut [i64],
    out: &mut [i64],
)
    requires { MakeWireReady p c.now d.now key.now scratch.old out.old }
    ensures { out.new ≡ by_kind kind (XOR p.q c.now d.now) (AND p.n p.q key.now c.now d.now) (NOT p.q c.now) }
{
    let q = Modulus::of(p.q);
    match Kind::of(kind) {
        Kind::Xor => xor_into(q, c, d, out),
        Kind::And => and_into(q, c, d, key, scratch, out),
        Kind::Not => not_into(q, c, out),
    }
}

// Works the gate that makes the wire `own`. Its operands are wires before its own.
fn work_gate(p: Params, gate: Gate, own: usize, wires: &mut [i64], key: &[i64], scratch: &mut [i64])
    requires { WorkGateReady p gate own wires.old key.now scratch.old }
    ensures { wires.new ≡ take (own * p.n) wires.old ++ (gate_wire p key.now gate (cut p.n own wires.old) ++ drop (own * p.n + p.n) wires.old) }
{
    let n = p.n as usize;
    let a = gate.left as usize * n;
    let b = gate.right as usize * n;
    let (before, behind) = wires.split_at_mut(own * n);
    make_wire(
        p,
        gate.kind,
        &before[a..a + n],
        &before[b..b + n],
        key,
        scratch,
        &mut behind[..n],
    );
}

// Works all gates, one wire after the other, and zeros the scratch.
pub fn work<C: Gates>(
    p: Params,
    inputs: usize,
    circuit: &C,
    wires: &mut [i64],
    key: &[i64],
    scratch: &mut [i64],
)
    requires { EvaluateReady p inputs (C.lent circuit.now) wires.old key.now scratch.old }
    ensures wires_after { wires.new ≡ flatten (wires_of p key.now (C.lent circuit.now).gates (cut p.n inputs wires.old)) }
    ensures scratch_after { scratch.new ≡ replicate (p.n * p.n) (pos 0) }
{
    // By number: a circuit gives its gates so, and the number is the wire that is written.
    for g in 0..circuit.count() {
        work_gate(p, circuit.gate(g), inputs + g, wires, key, scratch);
    }
    scratch.fill(0);
}
