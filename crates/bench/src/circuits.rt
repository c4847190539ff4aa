ghost use Rattle.refusal.specs.Parameters.{params};
ghost use Rattle.circuit.specs.Circuits.{as_lists};
ghost use Rattle.circuit.specs.Plan.{plan_loans};
ghost use Rattle.circuit.specs.Evaluate.{evaluate_loans};
ghost use Rattle.bench.specs.Numbers.{PlanNumber, EvaluateNumber};

use crate::number;
use checks::lent::Lists;
use evaluation::evaluate;
use planning::plan;
use refusal::Params;

// Planning on a set of any five numbers: answers the number.
#[unsafe(no_mangle)]
pub extern "C" fn bench_plan(
    n: u32,
    q: u32,
    l: u32,
    e: u32,
    f: u32,
    inputs: u32,
    kinds: &[u32],
    lefts: &[u32],
    rights: &[u32],
    bounds: &mut [u32],
) -> u32
    ensures { PlanNumber (plan_loans (params n q l e f) inputs (as_lists kinds.now lefts.now rights.now) bounds.old) result bounds.new }
{
    let listed = Lists {
        kinds,
        lefts,
        rights,
    };
    number(plan(Params { n, q, l, e, f }, inputs, &listed, bounds))
}

// Evaluation on a set of any five numbers: answers the number.
#[unsafe(no_mangle)]
pub extern "C" fn bench_evaluate(
    n: u32,
    q: u32,
    l: u32,
    e: u32,
    f: u32,
    inputs: u32,
    kinds: &[u32],
    lefts: &[u32],
    rights: &[u32],
    wires: &mut [i64],
    bounds: &mut [u32],
    key: &[i64],
    scratch: &mut [i64],
) -> u32
    ensures { EvaluateNumber (evaluate_loans (plan_loans (params n q l e f) inputs (as_lists kinds.now lefts.now rights.now) bounds.old) wires.old key.now scratch.old) result wires.new bounds.new scratch.new }
{
    let listed = Lists {
        kinds,
        lefts,
        rights,
    };
    number(evaluate(
        Params { n, q, l, e, f },
        inputs,
        &listed,
        wires,
        bounds,
        key,
        scratch,
    ))
}
