ghost use Rattle.std.specs.Prelude.{◌≡◌, ◌/◌, ◌≤◌, nat_abs};
ghost use Rattle.whole.specs.Centred.{centred};
ghost use Rattle.scheme.specs.Loans.{Near};

use crate::centre::{centre, one_turn};
use scheme::Modulus;

// A number modulo q, in -q/2 to q/2-1. Every entry of a ciphertext that is worked out comes out of one; a mask's, and what NOT copies, is as lent.
#[derive(Clone, Copy)]
pub struct Residue(i64);

impl Residue {
    // [x]q
    pub fn of(x: i64, q: Modulus) -> Residue
        ensures { result.0 ≡ centred q x }
    {
        Residue(centre(x, u64::from(q.get())))
    }

    // [x]q for an x that is at most q outside the range, which takes no division.
    pub fn near(x: i64, q: Modulus) -> Residue
        requires { Near q x }
        ensures { result.0 ≡ centred q x }
    {
        Residue(one_turn(x, u64::from(q.get())))
    }

    // [x]q for an x of at most q/2 in size: q/2 alone is outside the range.
    #[tactic(auto, using(crate::proofs::Halves::at_half, crate::proofs::Halves::below_half))]
    pub fn up_to_half(x: i64, q: Modulus) -> Residue
        requires { nat_abs x ≤ q / 2 }
        ensures { result.0 ≡ centred q x }
    {
        let half = i64::from(q.get() / 2);
        if half <= x {
            return Residue(-half);
        }
        Residue(x)
    }

    pub fn value(self) -> i64
        ensures { result ≡ self.0 }
    {
        self.0
    }
}
