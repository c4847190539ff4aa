ghost use Rattle.std.specs.Prelude.{◌≡◌, true};
ghost use Rattle.scheme.specs.Loans.{Modulus};
ghost use Rattle.loops.specs.Lent.{is_modulus};

// Whether q is a modulus of document 01: even, 16 to 1,048,576. A bool, as the definition has it: its callers test q among other loans, in one condition each.
// `modulus` of `edges` takes q from 2 on and out of 64 bits, so the two share no more than a line.
#[tactic(auto, unfolding(crate::specs::Lent::is_modulus))]
pub fn is_modulus(q: u32) -> bool
    ensures value { result ≡ is_modulus q }
    ensures modulus { result ≡ true → Modulus q }
{
    (16..=1048576).contains(&q) && q % 2 == 0
}
