// Printing what a call answered and what it left in the buffers that it may write.
ghost use Rattle.std.specs.Prelude.{◌≡◌, ◌+◌, ◌<◌, pos, length};
ghost use Rattle.std.specs.List.{flat_map};
ghost use Rattle.std.specs.Result.{result_unwrap_or};
ghost use Rattle.refusal.specs.Answer.{answer_to};
ghost use Rattle.calls.specs.Print.{PutAs, PutWords, put_word, put_answer, five_of};

use refusal::{Params, Refusal};
use std::io::Write;
use stream::Output;

// Puts the entries of a buffer.
pub fn entries<W: Write, T: Copy + Into<i64>>(output: &mut Output<W>, xs: &[T])
    ensures put { PutAs T.converts xs.now output.old output.new }
    ensures holds { 0 < length output.old + length xs.now → 0 < length output.new }
{
    for x in xs {
        output.number((*x).into());
    }
}

// Puts the numbers from 0 up of a buffer: bounds and bytes. By `unsigned`, which asks for room for their own digits; `entries` asks for room for any
// number with its sign, and so writes the block out earlier.
pub fn words<W: Write, T: Copy + Into<u64>>(output: &mut Output<W>, xs: &[T])
    ensures put { PutWords T.converts xs.now output.old output.new }
    ensures holds { 0 < length output.old + length xs.now → 0 < length output.new }
{
    for n in xs {
        output.unsigned((*n).into());
    }
}

// Puts the number and the place of what a call answers, both 0 where it is done.
#[tactic(auto, using(crate::specs::Print::put_word_holds))]
pub fn answer<W: Write, T>(output: &mut Output<W>, r: &Result<T, Refusal>)
    ensures put { output.new ≡ put_answer (answer_to r.now) output.old }
    ensures holds { 0 < length output.new }
{
    let (number, place) = match r {
        Ok(_) => (0, 0),
        Err(refusal) => (refusal.number(), refusal.place()),
    };
    output.unsigned(u64::from(number));
    output.unsigned(place);
}

// Puts the number and the place, and then what else is answered: a bound, a bit or a text's length, which is 0 on a refusal.
#[tactic(auto, using(crate::specs::Print::put_word_holds))]
pub fn value<W: Write>(output: &mut Output<W>, r: Result<u64, Refusal>)
    ensures put { output.new ≡ put_word (result_unwrap_or r 0) (put_answer (answer_to r) output.old) }
    ensures holds { 0 < length output.new }
{
    answer(output, &r);
    output.unsigned(r.unwrap_or(0));
}

// Puts the number and the place, and then a parameter set, which is all zeros on a refusal.
pub fn made<W: Write>(output: &mut Output<W>, r: Result<Params, Refusal>)
    ensures put { PutWords (λ x n. n ≡ x) (five_of r) (put_answer (answer_to r) output.old) output.new }
    ensures holds { 0 < length output.new }
{
    answer(output, &r);
    let five = match r {
        Ok(p) => [p.n, p.q, p.l, p.e, p.f],
        Err(_) => [0; 5],
    };
    words(output, &five);
}

// Puts the four rows of a bench key.
pub fn rows<W: Write>(output: &mut Output<W>, key: [[i64; 16]; 4])
    ensures put { PutAs (λ x y. y ≡ x) (flat_map (λ row. row) key) output.old output.new }
    ensures holds { 0 < length output.new }
{
    entries(output, key.as_flattened());
}
