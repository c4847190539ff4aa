// Encryption and decryption: document 01's *Encrypt* and *Decrypt*. What each call answers and writes is defined in the crate scheme, and what encryption's
// worker asks here. Every call takes arbitrary numbers and buffers and refuses bad ones with a `Refusal`; the functions that it works by stand beside it.
#![tactic(auto)]

ghost use Rattle.std.specs.Prelude.{◌≡◌, true, cond, ◌+◌, ◌*◌, ◌≤◌, ltb, nat_abs, length};
ghost use Rattle.whole.specs.Lists.{every};
ghost use Rattle.whole.specs.Inner.{sizes};
ghost use Rattle.refusal.specs.Answer.{answer_to};
ghost use Rattle.refusal.specs.First.{answer_of};
ghost use Rattle.scheme.specs.Arithmetic.{is_residue, encrypt, decrypt};
ghost use Rattle.scheme.specs.Calls.{bounded_of, decrypted_of, encrypt_loans, encrypt_rows, EncryptPromise, decrypt_loans, decrypt_rows, DecryptPromise};
ghost use Rattle.regev.specs.Ready.{EncryptIntoReady};

use keys::tests::{is_bad_bit, is_bad_key, is_exceeding, is_outside, length_differs};
use modular::residue::Residue;
use passes::key::inner_product;
use refusal::{Params, Refusal, refuse_if};
use scheme::Modulus;

// Why an encryption into `out` is refused: 1, 3, 4, 5, 6, 7.
fn check_encrypt(
    p: Params,
    s: &[i32],
    bit: u32,
    mask: &[i64],
    error: i64,
    out: &[i64],
) -> Result<(), Refusal>
    ensures { answer_to result ≡ answer_of (encrypt_rows (encrypt_loans p s.now bit mask.now error out.now)) }
{
    refuse_if(!p.in_range(), Refusal::Parameters)?;
    let q = Modulus::of(p.q);
    let n = p.n as usize;
    let is_wrong = length_differs(s.len(), n)
        | length_differs(mask.len(), n - 1)
        | length_differs(out.len(), n);
    refuse_if(is_wrong, Refusal::Length)?;
    refuse_if(is_bad_key(p.l, s), Refusal::Key)?;
    refuse_if(is_bad_bit(bit), Refusal::Bit)?;
    refuse_if(is_outside(q, mask), Refusal::Entry)?;
    refuse_if(is_exceeding(p.e, &[error]), Refusal::Error)
}

// Entry 0 of the encryption, and then the mask.
fn encrypt_into(q: Modulus, s: &[i32], bit: u32, mask: &[i64], error: i64, out: &mut [i64])
    requires { EncryptIntoReady q s.now bit mask.now error out.old }
    ensures { out.new ≡ encrypt q s.now bit mask.now error }
{
    let half = (q.get() as i64) / 2;
    let first = (bit as i64) * half - inner_product(&s[1..], mask) + error;
    out[0] = Residue::of(first, q).value();
    out[1..].copy_from_slice(mask);
}

// Encrypts a bit with a lent mask and error into `out`, and answers the stated bound E. Refusals 1, 3, 4, 5, 6, 7.
pub fn encrypt(
    p: Params,
    s: &[i32],
    bit: u32,
    mask: &[i64],
    error: i64,
    out: &mut [i64],
) -> Result<u32, Refusal>
    ensures { EncryptPromise (encrypt_loans p s.now bit mask.now error out.old) (bounded_of result) out.new }
{
    check_encrypt(p, s, bit, mask, error, out)?;
    encrypt_into(Modulus::of(p.q), s, bit, mask, error, out);
    Ok(p.e)
}

// Why a decryption is refused: 1, 3, 4, 6.
fn check_decrypt(p: Params, s: &[i32], c: &[i64]) -> Result<(), Refusal>
    ensures { answer_to result ≡ answer_of (decrypt_rows (decrypt_loans p s.now c.now)) }
{
    refuse_if(!p.in_range(), Refusal::Parameters)?;
    let q = Modulus::of(p.q);
    let n = p.n as usize;
    refuse_if(
        length_differs(s.len(), n) | length_differs(c.len(), n),
        Refusal::Length,
    )?;
    refuse_if(is_bad_key(p.l, s), Refusal::Key)?;
    refuse_if(is_outside(q, c), Refusal::Entry)
}

// 1 if d is more than q/4 in size, else 0.
fn bit_of(d: Residue, q: Modulus) -> u32
    requires { 2 * nat_abs d.0 ≤ q }
    ensures { result ≡ cond (ltb q (4 * nat_abs d.0)) 1 0 }
{
    u32::from(u64::from(q.get()) < 4 * d.value().unsigned_abs())
}

// The bit that the residue of <s,c> tells.
fn decrypt_bit(q: Modulus, s: &[i32], c: &[i64]) -> u32
    requires { (length s.now ≡ length c.now) × (sizes s.now ≤ 4096) × (every (is_residue q) c.now ≡ true) }
    ensures { result ≡ decrypt q s.now c.now }
{
    // q is at most 2^20, so that <s,c> does not wrap
    let _ = q.get();
    bit_of(Residue::of(inner_product(s, c), q), q)
}

// Decrypts a ciphertext, and answers the bit. Refusals 1, 3, 4, 6.
pub fn decrypt(p: Params, s: &[i32], c: &[i64]) -> Result<u32, Refusal>
    ensures { DecryptPromise (decrypt_loans p s.now c.now) (decrypted_of result) }
{
    check_decrypt(p, s, c)?;
    Ok(decrypt_bit(Modulus::of(p.q), s, c))
}
