ghost use Rattle.std.specs.Prelude.{◌≡◌, ℕ, ◌+◌, ◌*◌, ◌/◌, ◌<◌, ◌≤◌, ℤ, nat_le, unsigned_abs};
ghost use Rattle.whole.specs.Lists.{every};
ghost use Rattle.scheme.specs.Arithmetic.{is_residue};

use scheme::Modulus;

const TOP: u64 = 1 << 63;

// Whether every entry is in -h to h-1: modulo 2^64 no x + h has the top bit and each x - h has it. No exit inside the pass, so that it
// runs several entries at a time; x - h is made of x + h, which spares it a copy of x.
fn all_below(xs: &[i64], h: u64) -> bool
    requires { (0 < h) × (h ≤ 4611686018427387904) }
    ensures { result ≡ every (is_residue (2 * h)) xs.now }
{
    let mut some = 0;
    let mut each = u64::MAX;
    for x in xs {
        let raised = x.cast_unsigned().wrapping_add(h);
        some |= raised;
        each &= raised.wrapping_sub(2 * h);
    }
    (some < TOP) & (TOP <= each)
}

// Whether every entry is in -q/2 to q/2-1.
pub fn all_residues(xs: &[i64], q: Modulus) -> bool
    ensures { result ≡ every (is_residue q) xs.now }
{
    all_below(xs, u64::from(q.get()) / 2)
}

// Whether every entry is in -Q/2 to Q/2-1, with Q = q². What the two have in common is `all_below`; a `Modulus` is at most 2^20, and Q can be more.
pub fn all_big_residues(xs: &[i64], q: Modulus) -> bool
    ensures { result ≡ every (is_residue (q * q)) xs.now }
{
    let wide = u64::from(q.get());
    all_below(xs, wide * wide / 2)
}

// Whether every error is at most limit in size: a size beyond it and the room that the limit leaves below 2^63 sum to 2^63 or more. No exit inside the
// pass, as in `all_below`.
pub fn all_within(errors: &[i64], limit: u32) -> bool
    ensures { result ≡ every (λ e. nat_le (unsigned_abs e) limit) errors.now }
{
    let room = TOP - 1 - u64::from(limit);
    let mut beyond = 0;
    for e in errors {
        beyond += (e.unsigned_abs() + room) >> 63;
    }
    beyond == 0
}
