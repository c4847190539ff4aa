// A circuit as it is lent to planning and evaluation, whichever way its gates lie in the caller's memory.
ghost use Rattle.std.specs.Prelude.{◌≡◌, ◌<◌, false, length, get_or};
ghost use Rattle.circuit.specs.Circuits.{Circuit, gate, as_lists};
ghost use Rattle.checks.specs.Sized.{lists_sized};

use circuit::Gate;

pub trait Gates {
    // What planning and evaluation are promised of.
    ghost lent: { Self → Circuit };

    // How many gates are lent.
    fn count(&self) -> usize
        ensures { result ≡ (lent self.now).count };

    // 3: whether the parts of the circuit have not one length.
    fn is_uneven(&self) -> bool
        ensures { result ≡ (lent self.now).uneven };

    // Gate g, which makes wire inputs+g.
    fn gate(&self, g: usize) -> Gate
        requires even { (lent self.now).uneven ≡ false }
        requires inside { g < (lent self.now).count }
        ensures { result ≡ get_or (lent self.now).gates g (gate 0 0 0) };

    // Where the parts have one length, there are as many gates as are counted.
    ghost sized: { (c : Self) → (lent c).uneven ≡ false → length (lent c).gates ≡ (lent c).count };
}

// A circuit in three lists: gate g has the kind, the left and the right at g.
#[derive(Clone, Copy)]
pub struct Lists<'a> {
    pub kinds: &'a [u32],
    pub lefts: &'a [u32],
    pub rights: &'a [u32],
}

impl<'a> Gates for Lists<'a> {
    ghost lent = { λ c. as_lists c.kinds.now c.lefts.now c.rights.now };

    ghost sized = { λ c. lists_sized c.kinds.now c.lefts.now c.rights.now };

    fn count(&self) -> usize {
        self.kinds.len()
    }

    #[tactic(auto, using(scheme::specs::Passed::differs_is), unfolding(circuit::specs::Circuits::uneven_lists))]
    fn is_uneven(&self) -> bool {
        let count = self.count();
        (self.lefts.len() != count) | (self.rights.len() != count)
    }

    fn gate(&self, g: usize) -> Gate {
        Gate {
            kind: self.kinds[g],
            left: self.lefts[g],
            right: self.rights[g],
        }
    }
}
