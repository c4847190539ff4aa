// XOR, NOT and AND: document 01's *XOR*, *NOT* and *AND*. What each call answers and writes is defined in the crate scheme, and what the functions that it works
// by ask here. Every call takes arbitrary numbers and buffers and refuses bad ones with a `Refusal`; those functions, which a circuit calls too, stand beside it.
// The loans c, b1, d, b2 and out are the paper's and C's, one by one, and no struct: the promises (`XorLoans` and its like) name each.
#![tactic(auto)]

ghost use Rattle.std.specs.Prelude.{◌≡◌, length};
ghost use Rattle.scheme.specs.Arithmetic.{XOR, NOT, tensor, AND};
ghost use Rattle.scheme.specs.Calls.{bounded_of, xor_loans, xor_answer, XorPromise, not_loans, not_answer, NotPromise, and_loans, and_answer, AndPromise};
ghost use Rattle.gates.specs.Ready.{XorIntoReady, NotIntoReady, AndIntoReady};

use bound::and_bound;
use keys::tests::{is_outside, is_outside_big, is_over, length_differs};
use modular::residue::Residue;
use refusal::{Params, Refusal, refuse_if};
use scheme::Modulus;
use switch::fill_switch;
use tensor::fill_tensor;

// XOR: entry by entry [c+d]q.
pub fn xor_into(q: Modulus, c: &[i64], d: &[i64], out: &mut [i64])
    requires { XorIntoReady q c.now d.now out.old }
    ensures { out.new ≡ XOR q c.now d.now }
{
    // q is at most 2^20, so that no sum of two entries wraps
    let _ = q.get();
    // c and d by index: tried by a zip, and what an `iter_mut` in a zip leaves in the buffer is known to no proof, so that `returns` was left open.
    for (i, x) in out.iter_mut().enumerate() {
        *x = Residue::near(c[i] + d[i], q).value();
    }
}

// NOT: q/2 added to entry 0 and reduced.
pub fn not_into(q: Modulus, c: &[i64], out: &mut [i64])
    requires { NotIntoReady q c.now out.old }
    ensures { out.new ≡ NOT q c.now }
{
    out.copy_from_slice(c);
    let half = (q.get() as i64) / 2;
    out[0] = Residue::near(c[0] + half, q).value();
}

// AND: tensor, then switch. The scratch is left with the tensor.
pub fn and_into(q: Modulus, c: &[i64], d: &[i64], key: &[i64], scratch: &mut [i64], out: &mut [i64])
    requires { AndIntoReady q c.now d.now key.now scratch.old out.old }
    ensures out_after { out.new ≡ AND (length out.old) q key.now c.now d.now }
    ensures scratch_after { scratch.new ≡ tensor q c.now d.now }
{
    fill_tensor(q, c, d, scratch);
    fill_switch(q, scratch, key, out);
}

// The bound of an XOR into `out`, or why it is refused: 1, 3, 6, 8, 10.
fn check_xor(p: Params, c: &[i64], b1: u32, d: &[i64], b2: u32, out: &[i64]) -> Result<u32, Refusal>
    ensures { bounded_of result ≡ xor_answer (xor_loans p c.now b1 d.now b2 out.now) }
{
    refuse_if(!p.in_range(), Refusal::Parameters)?;
    let q = Modulus::of(p.q);
    let n = p.n as usize;
    let is_wrong = length_differs(c.len(), n)
        | length_differs(d.len(), n)
        | length_differs(out.len(), n);
    refuse_if(is_wrong, Refusal::Length)?;
    refuse_if(is_outside(q, c) | is_outside(q, d), Refusal::Entry)?;
    let x = b1 as u64;
    let y = b2 as u64;
    refuse_if(is_over(p.q, x) | is_over(p.q, y), Refusal::Bound)?;
    refuse_if(is_over(p.q, x + y), Refusal::Budget(0))?;
    Ok(b1 + b2)
}

// XOR of two ciphertexts into `out`; answers the bound. Refusals 1, 3, 6, 8, 10.
pub fn xor(
    p: Params,
    c: &[i64],
    b1: u32,
    d: &[i64],
    b2: u32,
    out: &mut [i64],
) -> Result<u32, Refusal>
    ensures { XorPromise (xor_loans p c.now b1 d.now b2 out.old) (bounded_of result) out.new }
{
    let bound = check_xor(p, c, b1, d, b2, out)?;
    xor_into(Modulus::of(p.q), c, d, out);
    Ok(bound)
}

// The bound of a NOT into `out`, or why it is refused: 1, 3, 6, 8. Decryption's check begins alike; it tests a key, 4, and no bound, 8.
fn check_not(p: Params, c: &[i64], bound: u32, out: &[i64]) -> Result<u32, Refusal>
    ensures { bounded_of result ≡ not_answer (not_loans p c.now bound out.now) }
{
    refuse_if(!p.in_range(), Refusal::Parameters)?;
    let q = Modulus::of(p.q);
    let n = p.n as usize;
    refuse_if(
        length_differs(c.len(), n) | length_differs(out.len(), n),
        Refusal::Length,
    )?;
    refuse_if(is_outside(q, c), Refusal::Entry)?;
    refuse_if(is_over(p.q, bound as u64), Refusal::Bound)?;
    Ok(bound)
}

// NOT of a ciphertext into `out`; answers the bound. Refusals 1, 3, 6, 8.
pub fn not(p: Params, c: &[i64], bound: u32, out: &mut [i64]) -> Result<u32, Refusal>
    ensures { NotPromise (not_loans p c.now bound out.old) (bounded_of result) out.new }
{
    let bound = check_not(p, c, bound, out)?;
    not_into(Modulus::of(p.q), c, out);
    Ok(bound)
}

// The bound of an AND into `out`, by `scratch`, or why it is refused: 1, 3, 6, 8, 10. The bound is worked out last, since it asks that rows 6 and 8 do not apply.
fn check_and(
    p: Params,
    c: &[i64],
    b1: u32,
    d: &[i64],
    b2: u32,
    key: &[i64],
    scratch: &[i64],
    out: &[i64],
) -> Result<u32, Refusal>
    ensures { bounded_of result ≡ and_answer (and_loans p c.now b1 d.now b2 key.now scratch.now out.now) }
{
    refuse_if(!p.in_range(), Refusal::Parameters)?;
    let q = Modulus::of(p.q);
    let n = p.n as usize;
    let square = n * n;
    let is_wrong = length_differs(c.len(), n)
        | length_differs(d.len(), n)
        | length_differs(key.len(), n * square)
        | length_differs(scratch.len(), square)
        | length_differs(out.len(), n);
    refuse_if(is_wrong, Refusal::Length)?;
    refuse_if(
        is_outside(q, c) | is_outside(q, d) | is_outside_big(q, key),
        Refusal::Entry,
    )?;
    refuse_if(
        is_over(p.q, b1 as u64) | is_over(p.q, b2 as u64),
        Refusal::Bound,
    )?;
    let bound = and_bound(p, b1, b2);
    refuse_if(is_over(p.q, bound), Refusal::Budget(0))?;
    Ok(bound as u32)
}

// AND of two ciphertexts into `out`, by a switching key and n² of scratch, which is zeroed; answers the bound. Refusals 1, 3, 6, 8, 10.
pub fn and(
    p: Params,
    c: &[i64],
    b1: u32,
    d: &[i64],
    b2: u32,
    key: &[i64],
    scratch: &mut [i64],
    out: &mut [i64],
) -> Result<u32, Refusal>
    ensures { AndPromise (and_loans p c.now b1 d.now b2 key.now scratch.old out.old) (bounded_of result) out.new scratch.new }
{
    let bound = check_and(p, c, b1, d, b2, key, scratch, out)?;
    and_into(Modulus::of(p.q), c, d, key, scratch, out);
    scratch.fill(0);
    Ok(bound)
}
