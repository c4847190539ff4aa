// Single gates. Each takes what the call lends, does it and puts its answer, and what it left in its buffers.
ghost use Rattle.std.specs.Prelude.{◌<◌, length};

use calls::lent::Lent;
use calls::print;
use calls::read::{MIDDLE, SHORT};
use std::io::Write;
use stream::Output;

// Call 9: a parameter set, two ciphertexts, each with its bound, and the result as found.
pub fn xor<W: Write>(mut call: Lent<'_>, output: &mut Output<W>)
    ensures { 0 < length output.new }
{
    let mut out = [0i64; SHORT];
    let p = call.params();
    let c = call.list();
    let b1 = call.word();
    let d = call.list();
    let b2 = call.word();
    let len = call.fill(&mut out);
    let out = &mut out[..len];
    let bound = gates::xor(p, c, b1, d, b2, out);
    print::value(output, bound.map(u64::from));
    print::entries(output, out);
}

// Call 10: a parameter set, a ciphertext, its bound and the result as found.
pub fn not<W: Write>(mut call: Lent<'_>, output: &mut Output<W>)
    ensures { 0 < length output.new }
{
    let mut out = [0i64; SHORT];
    let p = call.params();
    let c = call.list();
    let bound = call.word();
    let len = call.fill(&mut out);
    let out = &mut out[..len];
    let bound = gates::not(p, c, bound, out);
    print::value(output, bound.map(u64::from));
    print::entries(output, out);
}

// Call 11: a parameter set, two ciphertexts, each with its bound, a switching key, scratch and the
// result, both as found. Not inlined, for its scratch.
#[inline(never)]
pub fn and<W: Write>(mut call: Lent<'_>, output: &mut Output<W>)
    ensures { 0 < length output.new }
{
    let mut scratch = [0i64; MIDDLE];
    let mut out = [0i64; SHORT];
    let p = call.params();
    let c = call.list();
    let b1 = call.word();
    let d = call.list();
    let b2 = call.word();
    let key = call.list();
    let width = call.fill(&mut scratch);
    let len = call.fill(&mut out);
    let scratch = &mut scratch[..width];
    let out = &mut out[..len];
    let bound = gates::and(p, c, b1, d, b2, key, scratch, out);
    print::value(output, bound.map(u64::from));
    print::entries(output, scratch);
    print::entries(output, out);
}
