ghost use Rattle.std.specs.Prelude.{◌≡◌, ◌+◌, ◌≤◌, pos, ◌+ℤ◌, ◌*ℤ◌, nat_abs};

// A whole number that can pass 64 bits: hi·2^20 + lo. It is no residue: nothing rounds it before it is reduced.
#[derive(Clone, Copy)]
pub struct Wide {
    pub hi: i64,
    pub lo: i64,
}

impl Wide {
    // The number and x more: x's quotient by 2^20 goes to hi, its remainder to lo.
    pub fn plus(self, x: i64) -> Wide
        requires { (nat_abs self.hi ≤ 4611686018427387904) × (nat_abs self.lo ≤ 4611686018427387904) × (nat_abs x ≤ 4611686018427387904) }
        ensures sum { result.hi *ℤ pos 1048576 +ℤ result.lo ≡ (self.hi *ℤ pos 1048576 +ℤ self.lo) +ℤ x }
        ensures high { nat_abs result.hi ≤ nat_abs self.hi + 4398046511104 }
        ensures low { nat_abs result.lo ≤ nat_abs self.lo + 1048576 }
    {
        Wide {
            hi: self.hi + x / 1048576,
            lo: self.lo + x % 1048576,
        }
    }
}
