// Reads calls from standard input and prints what each answers and leaves in its buffers: one line
// a call, in the order of the calls. docs/REPLAY.md has the format.
#![tactic(auto)]

mod circuits;

use answers::{ciphers, files, gate, key, sets};
use calls::kind::Kind;
use calls::lent::Lent;
use calls::read::{LONG, STORE};
use circuits::Form;
use std::io::{Read, Write};
use stream::{Input, Output};

// The most calls of a run. A proved loop has to end, and nothing says that the input does.
const CALLS: usize = 4294967296;

// Does a call and puts its answer. Not inlined, and neither is a call with large arrays: they take no stack of what needs none.
#[inline(never)]
fn answer<W: Write>(kind: Kind, call: Lent<'_>, output: &mut Output<W>, long: &mut [i64]) {
    match kind {
        Kind::Make => sets::make(call, output),
        Kind::Sheet => sets::sheet(call, output),
        Kind::CheckKey => key::check_key(call, output),
        Kind::MakeSwitchingKey => key::make_switching_key(call, output, long),
        Kind::CheckBenchKey => key::check_bench_key(call, output),
        Kind::MakeBenchKey => key::make_bench_key(call, output),
        Kind::Encrypt => ciphers::encrypt(call, output),
        Kind::Decrypt => ciphers::decrypt(call, output),
        Kind::Xor => gate::xor(call, output),
        Kind::Not => gate::not(call, output),
        Kind::And => gate::and(call, output),
        Kind::Plan => circuits::plan(Form::Lists, call, output),
        Kind::Evaluate => circuits::evaluate(Form::Lists, call, output, long),
        Kind::CheckFile => files::check(call, output),
        Kind::PlanFile => files::plan(call, output),
        Kind::PrintFile => files::print(call, output),
        Kind::PlanGates => circuits::plan(Form::Records, call, output),
        Kind::EvaluateGates => circuits::evaluate(Form::Records, call, output, long),
    }
}

// One call after another, until the input ends or a call cannot be read.
fn answer_all<R: Read, W: Write>(
    input: &mut Input<'_, R>,
    output: &mut Output<W>,
    store: &mut [i64],
    long: &mut [i64],
) {
    for _ in 0..CALLS {
        let Some((kind, len)) = calls::read::call(input, store) else {
            return;
        };
        answer(
            kind,
            Lent {
                rest: &store[..len],
            },
            output,
            long,
        );
        output.end_line();
    }
}

fn main(rt: HostRuntime) {
    let mut block = [0u8; 65536];
    let mut input = Input::new(rt.stdin(), &mut block);
    let mut output = Output::new(rt.stdout());
    // Arrays, for nothing here allocates.
    let mut store = [0i64; STORE];
    let mut long = [0i64; LONG];
    answer_all(&mut input, &mut output, &mut store, &mut long);
    output.word(b"end");
    output.end_line();
    output.flush();
}
