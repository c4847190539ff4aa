// Encryption and decryption. Each takes what the call lends, does it and puts its answer, and what it left in a buffer.
ghost use Rattle.std.specs.Prelude.{◌<◌, length};

use calls::lent::Lent;
use calls::print;
use calls::read::SHORT;
use std::io::Write;
use stream::Output;

// Call 7: a parameter set, a key, a bit, a mask, an error and the result as found.
pub fn encrypt<W: Write>(mut call: Lent<'_>, output: &mut Output<W>)
    ensures { 0 < length output.new }
{
    let mut s = [0i32; SHORT];
    let mut out = [0i64; SHORT];
    let p = call.params();
    let n = call.fill(&mut s);
    let bit = call.word();
    let mask = call.list();
    let error = call.number();
    let len = call.fill(&mut out);
    let out = &mut out[..len];
    let bound = regev::encrypt(p, &s[..n], bit, mask, error, out);
    print::value(output, bound.map(u64::from));
    print::entries(output, out);
}

// Call 8: a parameter set, a key and a ciphertext.
pub fn decrypt<W: Write>(mut call: Lent<'_>, output: &mut Output<W>)
    ensures { 0 < length output.new }
{
    let mut s = [0i32; SHORT];
    let p = call.params();
    let n = call.fill(&mut s);
    let c = call.list();
    print::value(output, regev::decrypt(p, &s[..n], c).map(u64::from));
}
