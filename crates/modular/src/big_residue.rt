ghost use Rattle.std.specs.Prelude.{◌≡◌, ◌*◌, ◌≤◌, pos, ◌+ℤ◌, ◌*ℤ◌, nat_abs};
ghost use Rattle.whole.specs.Centred.{centred};
ghost use Rattle.whole.specs.Round.{round};

use crate::centre::centre;
use crate::residue::Residue;
use crate::round::round_quotient;
use crate::wide::Wide;
use scheme::Modulus;

// A number modulo Q = q², in -Q/2 to Q/2-1. Every entry of row 0 of a made switching key comes out of one, the masks below it being as lent; and so does the
// sum of a row, before it is rounded. It is no instance of one generic type with Residue: the two share `of` alone, a line, for which that type would take a trait
// with a ghost modulus, two marker types and an impl for each.
#[derive(Clone, Copy)]
pub struct BigResidue(i64);

impl BigResidue {
    // [x]Q
    pub fn of(x: i64, q: Modulus) -> BigResidue
        ensures { result.0 ≡ centred (q * q) x }
    {
        let wide = u64::from(q.get());
        BigResidue(centre(x, wide * wide))
    }

    // [x]Q of a number that can pass 64 bits. Its high part is reduced first, so that the sum of the two fits.
    pub fn of_wide(x: Wide, q: Modulus) -> BigResidue
        requires { nat_abs x.lo ≤ 4611686018427387904 }
        ensures { result.0 ≡ centred (q * q) (x.hi *ℤ pos 1048576 +ℤ x.lo) }
    {
        let wide = q.get() as i64;
        BigResidue::of(x.hi % (wide * wide) * 1048576 + x.lo, q)
    }

    // [round(s/q)]q. s is at most Q/2 in size, so that the rounded quotient is at most q/2 and takes no second division.
    pub fn round(self, q: Modulus) -> Residue
        requires { 2 * nat_abs self.0 ≤ q * q }
        ensures { result.0 ≡ centred q (round self.0 q) }
    {
        // q is even, so that the quotient is at most q/2
        let _ = q.get();
        Residue::up_to_half(round_quotient(self.0, q), q)
    }

    // The number. `Residue` has another name for it, so that one modulus is not stored for the other (must-not-compile/): an i64 from either type would be one name.
    pub fn big_value(self) -> i64
        ensures { result ≡ self.0 }
    {
        self.0
    }
}
