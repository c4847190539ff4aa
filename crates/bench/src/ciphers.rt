ghost use Rattle.std.specs.Prelude.{◌≡◌};
ghost use Rattle.refusal.specs.Parameters.{params};
ghost use Rattle.scheme.specs.Calls.{xor_loans, xor_answer, xor_result, not_loans, not_answer, not_result};

use crate::number;
use gates::{not, xor};
use refusal::Params;

// XOR on a set of any five numbers: answers the number.
#[unsafe(no_mangle)]
pub extern "C" fn bench_xor(
    n: u32,
    q: u32,
    l: u32,
    e: u32,
    f: u32,
    c: &[i64],
    b1: u32,
    d: &[i64],
    b2: u32,
    out: &mut [i64],
) -> u32
    ensures answer { result ≡ (xor_answer (xor_loans (params n q l e f) c.now b1 d.now b2 out.old)).number }
    ensures buffer { out.new ≡ xor_result (xor_loans (params n q l e f) c.now b1 d.now b2 out.old) }
{
    number(xor(Params { n, q, l, e, f }, c, b1, d, b2, out))
}

// NOT on a set of any five numbers: answers the number.
#[unsafe(no_mangle)]
pub extern "C" fn bench_not(
    n: u32,
    q: u32,
    l: u32,
    e: u32,
    f: u32,
    c: &[i64],
    bound: u32,
    out: &mut [i64],
) -> u32
    ensures answer { result ≡ (not_answer (not_loans (params n q l e f) c.now bound out.old)).number }
    ensures buffer { out.new ≡ not_result (not_loans (params n q l e f) c.now bound out.old) }
{
    number(not(Params { n, q, l, e, f }, c, bound, out))
}
