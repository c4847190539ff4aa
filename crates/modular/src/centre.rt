ghost use Rattle.std.specs.Prelude.{◌≡◌, ◌<◌, ◌≤◌};
ghost use Rattle.whole.specs.Centred.{centred};
ghost use Rattle.scheme.specs.Loans.{Near};

// [x]m for an x that is at most one modulus outside the range, which takes no division.
#[tactic(auto, using(crate::proofs::Turns::turned_up, crate::proofs::Turns::turned_down, crate::proofs::Turns::not_turned))]
pub fn one_turn(x: i64, m: u64) -> i64
    requires { (0 < m) × (m ≤ 1099511627776) × Near m x }
    ensures { result ≡ centred m x }
{
    let modulus = m as i64;
    if 2 * x < -modulus {
        return x + modulus;
    }
    if modulus <= 2 * x {
        return x - modulus;
    }
    x
}

// [x]m for any x.
pub fn centre(x: i64, m: u64) -> i64
    requires { (0 < m) × (m ≤ 1099511627776) }
    ensures { result ≡ centred m x }
{
    let rest = x % (m as i64);
    one_turn(rest, m)
}
