// What the numbers of a call are as entries of the engine's buffers.
ghost use Rattle.std.specs.Prelude.{◌≡◌, map};
ghost use Rattle.calls.specs.Gates.{gate_of};
ghost use Rattle.calls.specs.Lent.{Took};
ghost use Rattle.calls.specs.Width.{narrow as Width·narrow, word as Width·word, byte as Width·byte};

use circuit::Gate;

// An entry that is made of an A of the call. What was read lies within its width (`read`), so that the 0 of a number outside it is never
// seen; it is there so that any number will do.
pub trait Entry<A>: Copy {
    ghost entry: { A → Self };

    fn entry(x: A) -> Self
        ensures { result ≡ entry x };
}

impl Entry<i64> for i64 {
    ghost entry = { λ x. x };

    fn entry(x: i64) -> i64 {
        x
    }
}

// A signed number of 32 bits. This and the next two are no one impl over std's TryFrom: that says its result by a relation, and the promise of
// `copy` takes a function.
#[tactic(auto, unfolding(crate::specs::Width::narrow, stream::specs::Ranges::inside))]
impl Entry<i64> for i32 {
    ghost entry = { Width·narrow };

    fn entry(x: i64) -> i32 {
        i32::try_from(x).unwrap_or(0)
    }
}

// A number of 32 bits, from 0 up.
#[tactic(auto, unfolding(crate::specs::Width::word, stream::specs::Ranges::inside))]
impl Entry<i64> for u32 {
    ghost entry = { Width·word };

    fn entry(x: i64) -> u32 {
        u32::try_from(x).unwrap_or(0)
    }
}

// A byte.
#[tactic(auto, unfolding(crate::specs::Width::byte, stream::specs::Ranges::inside))]
impl Entry<i64> for u8 {
    ghost entry = { Width·byte };

    fn entry(x: i64) -> u8 {
        u8::try_from(x).unwrap_or(0)
    }
}

// Three numbers are a gate.
impl Entry<[i64; 3]> for Gate {
    ghost entry = { gate_of };

    fn entry(x: [i64; 3]) -> Gate {
        let [kind, left, right] = x;
        Gate {
            kind: u32::entry(kind),
            left: u32::entry(left),
            right: u32::entry(right),
        }
    }
}

// Puts xs at the front of a buffer, as its entries, and answers how many they are. A buffer that has no room for them takes none.
pub fn copy<A: Copy, T: Entry<A>>(xs: &[A], out: &mut [T]) -> usize
    ensures { Took (map T.entry xs.now) out.old result out.new }
{
    if xs.len() > out.len() {
        return 0;
    }
    // By index, after a try by zip over both: a proof then knows nothing of what `out` holds at the end.
    for (i, x) in xs.iter().enumerate() {
        out[i] = T::entry(*x);
    }
    xs.len()
}
