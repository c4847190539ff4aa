// What a call in the store lends: its numbers and lists, one after the other, as the call has them. Where the call has ended a number
// is 0 and a list empty.
ghost use Rattle.std.specs.Prelude.{◌≡◌, map, drop};
ghost use Rattle.calls.specs.Gates.{gates_of};
ghost use Rattle.calls.specs.Lent.{number_at, word_at, list_of, past_list, params_of, Took};

use crate::entry;
use crate::entry::Entry;
use circuit::Gate;
use refusal::Params;

// What is left of a call in the store.
#[derive(Drop)]
pub struct Lent<'a> {
    pub rest: &'a [i64],
}

impl<'a> Lent<'a> {
    // The next number.
    pub fn number(&mut self) -> i64
        ensures value { result ≡ number_at self.old.rest.now 0 }
        ensures rest { self.new.rest.now ≡ drop 1 self.old.rest.now }
    {
        let Some((first, rest)) = self.rest.split_first() else {
            return 0;
        };
        self.rest = rest;
        *first
    }

    // The next number, where it is one of 32 bits from 0 up.
    pub fn word(&mut self) -> u32
        ensures value { result ≡ word_at self.old.rest.now 0 }
        ensures rest { self.new.rest.now ≡ drop 1 self.old.rest.now }
    {
        u32::entry(self.number())
    }

    // The entries of the next list, whose count comes before them. A list that the call ends in is empty, and nothing is left after it.
    #[tactic(auto, unfolding(crate::specs::Lent::list_of))]
    pub fn list(&mut self) -> &'a [i64]
        ensures value { result.now ≡ list_of self.old.rest.now }
        ensures rest { self.new.rest.now ≡ past_list self.old.rest.now }
    {
        let n = self.word() as usize;
        let (list, rest) = self.rest.split_at_checked(n).unwrap_or((&[], &[]));
        self.rest = rest;
        list
    }

    // A parameter set: n, q, L, E and F, which may be any numbers.
    pub fn params(&mut self) -> Params
        ensures value { result ≡ params_of self.old.rest.now }
        ensures rest { self.new.rest.now ≡ drop 5 self.old.rest.now }
    {
        Params {
            n: self.word(),
            q: self.word(),
            l: self.word(),
            e: self.word(),
            f: self.word(),
        }
    }

    // Puts the next list at the front of a buffer, and answers how many entries it has. A buffer that has no room for it takes none of it.
    pub fn fill<T: Entry<i64>>(&mut self, out: &mut [T]) -> usize
        ensures value { Took (map T.entry (list_of self.old.rest.now)) out.old result out.new }
        ensures rest { self.new.rest.now ≡ past_list self.old.rest.now }
    {
        entry::copy(self.list(), out)
    }

    // Puts the gates of the next list there in the same way. One or two numbers left over are no gate.
    #[tactic(auto, unfolding(crate::specs::Gates::gates_of))]
    pub fn gates(&mut self, out: &mut [Gate]) -> usize
        ensures value { Took (gates_of (list_of self.old.rest.now)) out.old result out.new }
        ensures rest { self.new.rest.now ≡ past_list self.old.rest.now }
    {
        let (rows, _) = self.list().as_chunks::<3>();
        entry::copy(rows, out)
    }
}
