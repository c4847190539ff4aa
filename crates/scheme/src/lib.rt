// Document 01's *Arithmetic* and what the calls on keys and ciphertexts answer: definitions and laws, in specs/. A modulus is a type.
#![tactic(auto)]

ghost use Rattle.std.specs.Prelude.{◌≡◌};
ghost use Rattle.scheme.specs.Loans as loans;

use std::marker::Model;

// A modulus of document 01: even, above 0 and at most 2^20. A contract sees it as that number.
#[derive(Clone, Copy)]
pub struct Modulus {
    q: u32,
}

impl Model for Modulus {
    ghost use Rattle.std.specs.Prelude.{ℕ};
    ghost use Rattle.scheme.specs.Loans as loans;

    ghost Value = { ℕ };

    ghost view = { λ m. m.q };

    ghost invariant = { λ m. loans.Modulus m.q };

    ghost inverse = { λ q. record { q = q } };
}

impl Modulus {
    // The modulus that a number is: after refusal 1, every q of a parameter set is one.
    pub fn of(q: u32) -> Modulus
        requires { loans.Modulus q }
        ensures { result ≡ q }
    {
        Modulus { q }
    }

    // The number, and what is known of it. A function that hands its modulus on and reads no number of it calls this for the fact alone.
    pub fn get(self) -> u32
        ensures value { result ≡ self }
        ensures modulus { loans.Modulus self }
    {
        self.q
    }
}
