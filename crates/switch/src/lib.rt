// The switch of document 01's *Arithmetic* in code, proved to give the definition's entries: "the answer is that of the exact S".
#![tactic(auto)]

ghost use Rattle.std.specs.Prelude.{◌≡◌, true, ◌*◌, ◌≤◌, pos, ◌+ℤ◌, ◌*ℤ◌, nat_abs, length};
ghost use Rattle.whole.specs.Inner.{inner};
ghost use Rattle.whole.specs.Lists.{every};
ghost use Rattle.scheme.specs.Arithmetic.{is_residue, switch_entry, switch};
ghost use Rattle.scheme.specs.Loans.{UpTo};

use modular::big_residue::BigResidue;
use modular::residue::Residue;
use modular::wide::Wide;
use scheme::Modulus;

// The exact sum of at most 16 products. `passes::key::inner_product` has entries of another type on the left, and its sum is small by their sizes and not by their count.
fn inner(t: &[i64], row: &[i64]) -> i64
    requires { (length t.now ≤ 16) × (length row.now ≡ length t.now) × UpTo 524288 t.now × UpTo 549755813888 row.now }
    ensures value { result ≡ inner t.now row.now }
    ensures small { nat_abs result ≤ 4611686018427387904 }
{
    let mut sum = 0;
    for (x, y) in t.iter().zip(row) {
        sum += *x * *y;
    }
    sum
}

// The exact sum S of a row, which reaches 2^78: the sums of 16 products each, and of those that are left. A chunk is an array, which says how many products
// there are, so that its sum is unrolled whole. One count serves both rows: a zip tests the second too, and bench/count then finds no row loop of one block.
fn row_sum(t: &[i64], row: &[i64]) -> Wide
    requires { (length t.now ≤ 1048576) × (length row.now ≡ length t.now) × UpTo 524288 t.now × UpTo 549755813888 row.now }
    ensures { (result.hi *ℤ pos 1048576 +ℤ result.lo ≡ inner t.now row.now) × (nat_abs result.lo ≤ 137438953472) }
{
    let (chunks, rest) = t.as_chunks::<16>();
    let (row_chunks, row_rest) = row.as_chunks::<16>();
    let mut sum = Wide { hi: 0, lo: 0 };
    for (k, chunk) in chunks.iter().enumerate() {
        sum = sum.plus(inner(chunk, &row_chunks[k]));
    }
    sum.plus(inner(rest, row_rest))
}

// One switched entry: [round(S/q)]q for the exact S. Only S modulo Q matters, so that S is reduced before it is rounded.
pub fn switch_entry(q: Modulus, t: &[i64], row: &[i64]) -> Residue
    requires { (length t.now ≤ 1048576) × (length row.now ≡ length t.now) × (every (is_residue q) t.now ≡ true) × (every (is_residue (q * q)) row.now ≡ true) }
    ensures { result.0 ≡ switch_entry q t.now row.now }
{
    // q is at most 2^20, so that S is no longer than two parts hold
    let _ = q.get();
    BigResidue::of_wide(row_sum(t, row), q).round(q)
}

// All n entries of the switch of t, from the n rows of n² entries of the switching key.
pub fn fill_switch(q: Modulus, t: &[i64], key: &[i64], out: &mut [i64])
    requires { (length out.old ≤ 1024) × (length t.now ≡ length out.old * length out.old) × (length key.now ≡ length out.old * length t.now) × (every (is_residue q) t.now ≡ true) × (every (is_residue (q * q)) key.now ≡ true) }
    ensures { out.new ≡ switch (length out.old) q key.now t.now }
{
    let width = t.len();
    // A row by its place: chunks of the key ask a width above 0, which is not asked of t.
    for (i, x) in out.iter_mut().enumerate() {
        let at = i * width;
        *x = switch_entry(q, t, &key[at..at + width]).value();
    }
}
