// The calls on keys. Each takes what the call lends, does it and puts its answer, and what it left in a buffer.
ghost use Rattle.std.specs.Prelude.{◌≡◌, ◌<◌, length};

use calls::lent::Lent;
use calls::print;
use calls::read::SHORT;
use std::io::Write;
use stream::Output;

// Call 3: a parameter set and a key.
pub fn check_key<W: Write>(mut call: Lent<'_>, output: &mut Output<W>)
    ensures { 0 < length output.new }
{
    let mut s = [0i32; SHORT];
    let p = call.params();
    let n = call.fill(&mut s);
    print::answer(output, &keys::check_key(p, &s[..n]));
}

// Call 4: a parameter set, a key, masks, errors and the switching key as found. The switching key
// is made in a buffer that is lent.
pub fn make_switching_key<W: Write>(mut call: Lent<'_>, output: &mut Output<W>, out: &mut [i64])
    ensures holds { 0 < length output.new }
    ensures out_len_unchanged { length out.new ≡ length out.old }
{
    let mut s = [0i32; SHORT];
    let p = call.params();
    let n = call.fill(&mut s);
    let masks = call.list();
    let errors = call.list();
    let len = call.fill(out);
    let out = &mut out[..len];
    let answer = switchingkey::make_switching_key(p, &s[..n], masks, errors, out);
    print::answer(output, &answer);
    print::entries(output, out);
}

// Call 5: a key, masks and errors.
pub fn check_bench_key<W: Write>(mut call: Lent<'_>, output: &mut Output<W>)
    ensures { 0 < length output.new }
{
    let mut s = [0i32; SHORT];
    let n = call.fill(&mut s);
    let masks = call.list();
    let errors = call.list();
    print::answer(output, &benchkey::check_bench_key(&s[..n], masks, errors));
}

// Call 6: a key, masks and errors. It reads like call 5, and no common part is plainer: that would have to lend the key's buffer to what follows.
pub fn make_bench_key<W: Write>(mut call: Lent<'_>, output: &mut Output<W>)
    ensures { 0 < length output.new }
{
    let mut s = [0i32; SHORT];
    let n = call.fill(&mut s);
    let masks = call.list();
    let errors = call.list();
    print::rows(output, benchkey::make_bench_key(&s[..n], masks, errors));
}
