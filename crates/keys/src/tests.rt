// The tests that refusals are made of.
ghost use Rattle.std.specs.Prelude.{◌≡◌, ◌*◌, ◌≤◌, length};
ghost use Rattle.scheme.specs.Calls.{differs, bad_key, bad_bit, outside, exceeds, over_budget};

use passes::key::sum_of_sizes;
use passes::range::{all_big_residues, all_residues, all_within};
use scheme::Modulus;

// 3: a length differs from the one required.
#[tactic(auto, unfolding(scheme::specs::Calls::differs))]
pub fn length_differs(had: usize, required: usize) -> bool
    ensures { result ≡ differs had required }
{
    had != required
}

// 4: s0 is not 1, or the key's sum exceeds L.
pub fn is_bad_key(l: u32, s: &[i32]) -> bool
    requires { length s.now ≤ 1024 }
    ensures { result ≡ bad_key l s.now }
{
    if s.is_empty() {
        return true;
    }
    !((s[0] == 1) & (sum_of_sizes(s) <= (l as u64)))
}

// 5: a bit is neither 0 nor 1.
#[tactic(auto, unfolding(scheme::specs::Calls::bad_bit))]
pub fn is_bad_bit(bit: u32) -> bool
    ensures { result ≡ bad_bit bit }
{
    !(bit <= 1)
}

// 6: an entry is outside -q/2 to q/2-1.
#[tactic(auto, unfolding(scheme::specs::Calls::outside))]
pub fn is_outside(q: Modulus, xs: &[i64]) -> bool
    ensures { result ≡ outside q xs.now }
{
    !all_residues(xs, q)
}

// 6: an entry is outside -Q/2 to Q/2-1. It is `is_outside` with Q for q, and no one function has both: a modulus is at most 2^20, and Q can be more.
#[tactic(auto, unfolding(scheme::specs::Calls::outside))]
pub fn is_outside_big(q: Modulus, xs: &[i64]) -> bool
    ensures { result ≡ outside (q * q) xs.now }
{
    !all_big_residues(xs, q)
}

// 7: an error exceeds its limit.
#[tactic(auto, unfolding(scheme::specs::Calls::exceeds))]
pub fn is_exceeding(limit: u32, errors: &[i64]) -> bool
    ensures { result ≡ exceeds limit errors.now }
{
    !all_within(errors, limit)
}

// 8 and 10: four times a bound is at or above q, which is to say that the bound is at or above a quarter of q rounded up. Four times a bound could pass 64 bits, and
// the quarter cannot, so that any bound may be asked about.
pub fn is_over(q: u32, bound: u64) -> bool
    ensures { result ≡ over_budget q bound }
{
    u64::from(q).div_ceil(4) <= bound
}
