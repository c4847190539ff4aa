ghost use Rattle.std.specs.Prelude.{◌≡◌, ◌≤◌, nat_abs};
ghost use Rattle.whole.specs.Round.{round};

use scheme::Modulus;

// round(a/q), a half up: (a + q/2)/q rounded down. The modulus is even, so q/2 is whole.
pub fn round_quotient(a: i64, q: Modulus) -> i64
    requires { nat_abs a ≤ 4611686018427387904 }
    ensures { result ≡ round a q }
{
    let modulus = i64::from(q.get());
    (a + modulus / 2).div_euclid(modulus)
}
