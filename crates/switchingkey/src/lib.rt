// Switching keys: document 01's *Switching key*. The call takes arbitrary numbers and buffers and refuses bad ones with a `Refusal`; the functions that it works by stand
// beside it. The loans s, masks and errors are the paper's and C's, one by one, and no struct: the promise (`MakeKeyLoans`) names each.
#![tactic(auto)]

ghost use Rattle.std.specs.Prelude.{◌≡◌, ◌*◌, ◌/◌, ◌%◌, pos, ◌+ℤ◌, ◌-ℤ◌, ◌*ℤ◌, length, get_or, drop};
ghost use Rattle.whole.specs.Centred.{centred};
ghost use Rattle.whole.specs.Inner.{inner};
ghost use Rattle.whole.specs.Lists.{tabulate};
ghost use Rattle.refusal.specs.Answer.{answer_to};
ghost use Rattle.refusal.specs.First.{answer_of};
ghost use Rattle.scheme.specs.Arithmetic.{mask_column, row_zero_entry};
ghost use Rattle.scheme.specs.Calls.{make_key_loans, make_key_rows, MakeKeyPromise};
ghost use Rattle.switchingkey.specs.Ready.{RowZeroEntryReady, FillRowZeroReady};

use keys::tests::{is_bad_key, is_exceeding, is_outside_big, length_differs};
use modular::big_residue::BigResidue;
use passes::key::inner_column;
use refusal::{Params, Refusal, refuse_if};
use scheme::Modulus;

// Row 0, column j of a switching key: [q·su·sv - <s',mask column j> + fj]Q for j = u·n+v.
fn row_zero_entry(q: Modulus, s: &[i32], masks: &[i64], error: i64, j: usize) -> BigResidue
    requires { RowZeroEntryReady q s.now masks.now error j }
    ensures { result.0 ≡ centred (q * q) (pos q *ℤ get_or s.now (j / length s.now) (pos 0) *ℤ get_or s.now (j % length s.now) (pos 0) -ℤ inner (drop 1 s.now) (mask_column (length s.now) masks.now j) +ℤ error) }
{
    let n = s.len();
    let product = (q.get() as i64) * (s[j / n] as i64) * (s[j % n] as i64);
    BigResidue::of(product - inner_column(&s[1..], masks, n * n, j) + error, q)
}

// Row 0 of a switching key.
fn fill_row_zero(q: Modulus, s: &[i32], masks: &[i64], errors: &[i64], out: &mut [i64])
    requires { FillRowZeroReady q s.now masks.now errors.now out.old }
    ensures { out.new ≡ tabulate (length s.now * length s.now) (row_zero_entry (length s.now) q s.now masks.now errors.now) }
{
    // errors by index: j is counted all the same, since it is the column, and a zip leaves the proof open as in `gates::xor_into`.
    for (j, x) in out.iter_mut().enumerate() {
        *x = row_zero_entry(q, s, masks, errors[j], j).big_value();
    }
}

// Why a switching key into `out` is refused: 1, 3, 4, 6, 7.
fn check_make_key(
    p: Params,
    s: &[i32],
    masks: &[i64],
    errors: &[i64],
    out: &[i64],
) -> Result<(), Refusal>
    ensures { answer_to result ≡ answer_of (make_key_rows (make_key_loans p s.now masks.now errors.now out.now)) }
{
    refuse_if(!p.in_range(), Refusal::Parameters)?;
    let q = Modulus::of(p.q);
    let n = p.n as usize;
    let square = n * n;
    let is_wrong = length_differs(s.len(), n)
        | length_differs(masks.len(), (n - 1) * square)
        | length_differs(errors.len(), square)
        | length_differs(out.len(), n * square);
    refuse_if(is_wrong, Refusal::Length)?;
    refuse_if(is_bad_key(p.l, s), Refusal::Key)?;
    refuse_if(is_outside_big(q, masks), Refusal::Entry)?;
    refuse_if(is_exceeding(p.f, errors), Refusal::Error)
}

// Makes a switching key: n rows of n² entries, from a key, masks for the rows below row 0, and errors. Refusals 1, 3, 4, 6, 7.
pub fn make_switching_key(
    p: Params,
    s: &[i32],
    masks: &[i64],
    errors: &[i64],
    out: &mut [i64],
) -> Result<(), Refusal>
    ensures { MakeKeyPromise (make_key_loans p s.now masks.now errors.now out.old) (answer_to result) out.new }
{
    check_make_key(p, s, masks, errors, out)?;
    let square = errors.len();
    fill_row_zero(Modulus::of(p.q), s, masks, errors, &mut out[0..square]);
    out[square..].copy_from_slice(masks);
    Ok(())
}
