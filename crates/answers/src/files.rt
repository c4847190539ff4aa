// The calls on circuit files. Each takes what the call lends, does it and puts its answer, and what it left in a buffer. None is inlined: the arrays of
// one would take stack in all calls.
ghost use Rattle.std.specs.Prelude.{◌<◌, length};

use calls::lent::Lent;
use calls::print;
use calls::read::{FILE, TEXT};
use std::io::Write;
use stream::Output;

// Call 14: a file.
#[tactic(auto, using(calls::specs::Print::put_word_holds))]
#[inline(never)]
pub fn check<W: Write>(mut call: Lent<'_>, output: &mut Output<W>)
    ensures { 0 < length output.new }
{
    let mut file = [0u8; FILE];
    let n = call.fill(&mut file);
    output.unsigned(gatfile::plan::check(&file[..n]));
}

// Call 15: a file, and its bounds as found.
#[tactic(auto, using(calls::specs::Print::put_word_holds))]
#[inline(never)]
pub fn plan<W: Write>(mut call: Lent<'_>, output: &mut Output<W>)
    ensures { 0 < length output.new }
{
    let mut file = [0u8; FILE];
    let mut bounds = [0u8; FILE];
    let n = call.fill(&mut file);
    let b = call.fill(&mut bounds);
    let bounds = &mut bounds[..b];
    output.unsigned(gatfile::plan::plan(&file[..n], bounds));
    print::words(output, bounds);
}

// Call 16: a file, and the buffer of its text as found.
#[inline(never)]
pub fn print<W: Write>(mut call: Lent<'_>, output: &mut Output<W>)
    ensures { 0 < length output.new }
{
    let mut file = [0u8; FILE];
    let mut out = [0u8; TEXT];
    let n = call.fill(&mut file);
    let len = call.fill(&mut out);
    let out = &mut out[..len];
    print::value(output, text::text(&file[..n], out).map(|n| n as u64));
    print::words(output, out);
}
