// XOR and NOT, and whole circuits for a C program to time: the calls of `gates`, `planning` and `evaluation`. The loops of an AND gate are the crate `loops`. No part of
// the engine. C calls each by its own name, with slices and five numbers (bench/rattle.h), and takes a number for an answer: so each pair stays two functions.
#![tactic(auto)]

pub mod ciphers;
pub mod circuits;

ghost use Rattle.std.specs.Prelude.{◌≡◌};
ghost use Rattle.refusal.specs.Answer.{answer_to};

use refusal::Refusal;

// The number of what a call answers: 0 where it is done.
fn number<A: Copy>(answer: Result<A, Refusal>) -> u32
    ensures { result ≡ (answer_to answer).number }
{
    match answer {
        Ok(_) => 0,
        Err(refusal) => refusal.number(),
    }
}
