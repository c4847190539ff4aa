// The calls on parameter sets. Each takes what the call lends, does it and puts its answer.
ghost use Rattle.std.specs.Prelude.{◌<◌, length};

use calls::lent::Lent;
use calls::print;
use refusal::Params;
use std::io::Write;
use stream::Output;

// Call 1: n, q, L, E and F.
pub fn make<W: Write>(mut call: Lent<'_>, output: &mut Output<W>)
    ensures { 0 < length output.new }
{
    let p = call.params();
    print::made(output, Params::make(p.n, p.q, p.l, p.e, p.f));
}

// Call 2: a sheet number.
pub fn sheet<W: Write>(mut call: Lent<'_>, output: &mut Output<W>)
    ensures { 0 < length output.new }
{
    print::made(output, Params::sheet(call.word()));
}
