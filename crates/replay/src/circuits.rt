// The calls on circuits. Each takes what the call lends, does it and puts its answer, and what it left in its buffers.
ghost use Rattle.std.specs.Prelude.{◌≡◌, ◌<◌, length};
ghost use Rattle.refusal.specs.Answer.{answer_to};
ghost use Rattle.circuit.specs.Plan.{plan_loans, PlanPromise};
ghost use Rattle.circuit.specs.Evaluate.{evaluate_loans, EvaluatePromise};
ghost use Rattle.replay.specs.Lent.{circuit_of};

use calls::lent::Lent;
use calls::print;
use calls::read::{MIDDLE, WIRES};
use checks::lent::Lists;
use circuit::Gate;
use refusal::{Params, Refusal};
use std::io::Write;
use stream::Output;

// What an array of records holds before it is filled.
const NO_GATE: Gate = Gate {
    kind: 0,
    left: 0,
    right: 0,
};

// How a call lends the gates of its circuit: calls 12 and 13 in three lists, calls 17 and 18 as records.
#[derive(Clone, Copy)]
pub enum Form {
    Lists,
    Records,
}

// A circuit as it is lent.
#[derive(Clone, Copy)]
enum Circuit<'a> {
    Lists(Lists<'a>),
    Records(&'a [Gate]),
}

impl Circuit<'_> {
    // Plans.
    fn plan(self, p: Params, inputs: u32, bounds: &mut [u32]) -> Result<(), Refusal>
        ensures { PlanPromise (plan_loans p inputs (circuit_of self.entry) bounds.old) (answer_to result) bounds.new }
    {
        match self {
            Circuit::Lists(lists) => planning::plan(p, inputs, &lists, bounds),
            Circuit::Records(gates) => records::plan::plan_gates(p, inputs, gates, bounds),
        }
    }

    // Evaluates.
    fn evaluate(
        self,
        p: Params,
        inputs: u32,
        wires: &mut [i64],
        bounds: &mut [u32],
        key: &[i64],
        scratch: &mut [i64],
    ) -> Result<(), Refusal>
        ensures { EvaluatePromise (evaluate_loans (plan_loans p inputs (circuit_of self.entry) bounds.old) wires.old key.now scratch.old) (answer_to result) wires.new bounds.new scratch.new }
    {
        match self {
            Circuit::Lists(lists) => {
                evaluation::evaluate(p, inputs, &lists, wires, bounds, key, scratch)
            }
            Circuit::Records(gates) => {
                records::evaluate::evaluate_gates(p, inputs, gates, wires, bounds, key, scratch)
            }
        }
    }
}

// Takes the gates of a call, three lists of them, into a buffer for each.
fn lists<'a>(call: &mut Lent<'_>, room: &'a mut [[u32; WIRES]; 3]) -> Circuit<'a> {
    let k = call.fill(&mut room[0]);
    let l = call.fill(&mut room[1]);
    let r = call.fill(&mut room[2]);
    Circuit::Lists(Lists {
        kinds: &room[0][..k],
        lefts: &room[1][..l],
        rights: &room[2][..r],
    })
}

// Takes the gates of a call, records, into a buffer.
fn records<'a>(call: &mut Lent<'_>, room: &'a mut [Gate; WIRES]) -> Circuit<'a> {
    let n = call.gates(room);
    Circuit::Records(&room[..n])
}

// Plans, with the rest of the call: the bounds as found. Puts the answer and the bounds.
fn put_planned<W: Write>(
    circuit: Circuit<'_>,
    p: Params,
    inputs: u32,
    mut call: Lent<'_>,
    output: &mut Output<W>,
)
    ensures { 0 < length output.new }
{
    let mut bounds = [0u32; WIRES];
    let b = call.fill(&mut bounds);
    let bounds = &mut bounds[..b];
    print::answer(output, &circuit.plan(p, inputs, bounds));
    print::words(output, bounds);
}

// Plans, with the gates in three lists. They take room in this function alone, and records in the next, neither of which is inlined: a call has room for
// the form at hand, and other calls for none.
#[inline(never)]
fn plan_lists<W: Write>(p: Params, inputs: u32, mut call: Lent<'_>, output: &mut Output<W>)
    ensures { 0 < length output.new }
{
    let mut room = [[0u32; WIRES]; 3];
    let circuit = lists(&mut call, &mut room);
    put_planned(circuit, p, inputs, call, output);
}

// Plans, with the gates as records.
#[inline(never)]
fn plan_records<W: Write>(p: Params, inputs: u32, mut call: Lent<'_>, output: &mut Output<W>)
    ensures { 0 < length output.new }
{
    let mut room = [NO_GATE; WIRES];
    let circuit = records(&mut call, &mut room);
    put_planned(circuit, p, inputs, call, output);
}

// Calls 12 and 17: a parameter set, the number of inputs, the gates, and the bounds as found.
pub fn plan<W: Write>(form: Form, mut call: Lent<'_>, output: &mut Output<W>)
    ensures { 0 < length output.new }
{
    let p = call.params();
    let inputs = call.word();
    match form {
        Form::Lists => plan_lists(p, inputs, call, output),
        Form::Records => plan_records(p, inputs, call, output),
    }
}

// Evaluates, with the rest of the call: the wires and the bounds as found, a switching key and scratch as found. Puts the answer and what is left
// in the three buffers.
fn put_evaluated<W: Write>(
    circuit: Circuit<'_>,
    p: Params,
    inputs: u32,
    mut call: Lent<'_>,
    output: &mut Output<W>,
    wires: &mut [i64],
)
    ensures holds { 0 < length output.new }
    ensures wires_len_unchanged { length wires.new ≡ length wires.old }
{
    let mut bounds = [0u32; WIRES];
    let mut scratch = [0i64; MIDDLE];
    let n = call.fill(wires);
    let b = call.fill(&mut bounds);
    let key = call.list();
    let s = call.fill(&mut scratch);
    let wires = &mut wires[..n];
    let bounds = &mut bounds[..b];
    let scratch = &mut scratch[..s];
    let answer = circuit.evaluate(p, inputs, wires, bounds, key, scratch);
    print::answer(output, &answer);
    print::entries(output, wires);
    print::words(output, bounds);
    print::entries(output, scratch);
}

// Evaluates, with the gates in three lists.
#[inline(never)]
fn evaluate_lists<W: Write>(
    p: Params,
    inputs: u32,
    mut call: Lent<'_>,
    output: &mut Output<W>,
    wires: &mut [i64],
)
    ensures holds { 0 < length output.new }
    ensures wires_len_unchanged { length wires.new ≡ length wires.old }
{
    let mut room = [[0u32; WIRES]; 3];
    let circuit = lists(&mut call, &mut room);
    put_evaluated(circuit, p, inputs, call, output, wires);
}

// Evaluates, with the gates as records.
#[inline(never)]
fn evaluate_records<W: Write>(
    p: Params,
    inputs: u32,
    mut call: Lent<'_>,
    output: &mut Output<W>,
    wires: &mut [i64],
)
    ensures holds { 0 < length output.new }
    ensures wires_len_unchanged { length wires.new ≡ length wires.old }
{
    let mut room = [NO_GATE; WIRES];
    let circuit = records(&mut call, &mut room);
    put_evaluated(circuit, p, inputs, call, output, wires);
}

// Calls 13 and 18: as calls 12 and 17, with the wires as found before the bounds, and a switching key
// and scratch after them. The wires stand in a buffer that is lent.
pub fn evaluate<W: Write>(form: Form, mut call: Lent<'_>, output: &mut Output<W>, wires: &mut [i64])
    ensures holds { 0 < length output.new }
    ensures wires_len_unchanged { length wires.new ≡ length wires.old }
{
    let p = call.params();
    let inputs = call.word();
    match form {
        Form::Lists => evaluate_lists(p, inputs, call, output, wires),
        Form::Records => evaluate_records(p, inputs, call, output, wires),
    }
}
