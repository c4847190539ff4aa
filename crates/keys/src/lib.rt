// The check of a key, and the tests that the refusals of all calls are made of. Every call takes arbitrary numbers and buffers and refuses bad ones
// with a `Refusal`.
#![tactic(auto)]

pub mod tests;

ghost use Rattle.refusal.specs.Answer.{answer_to};
ghost use Rattle.scheme.specs.Calls.{key_check_loans, KeyCheckPromise};

use refusal::{Params, Refusal, refuse_if};
use tests::{is_bad_key, length_differs};

// Key check: whether s is a key for the parameters. Refusals 1, 3, 4.
pub fn check_key(p: Params, s: &[i32]) -> Result<(), Refusal>
    ensures { KeyCheckPromise (key_check_loans p s.now) (answer_to result) }
{
    refuse_if(!p.in_range(), Refusal::Parameters)?;
    refuse_if(length_differs(s.len(), p.n as usize), Refusal::Length)?;
    refuse_if(is_bad_key(p.l, s), Refusal::Key)
}
