// A circuit file as it is lent to planning: its gates are read where they lie.
ghost use Rattle.std.specs.Prelude.{◌≡◌, refl, IfOk};
ghost use Rattle.refusal.specs.Answer.{answer_to};
ghost use Rattle.refusal.specs.First.{first_of, answer_of};
ghost use Rattle.circuit.specs.Circuits.{as_records};
ghost use Rattle.circuitfile.specs.File.{file_gates, head_rows};

use checks::lent::Gates;
use circuit::Gate;
use filehead::{HEAD, check_head, gate_count};
use refusal::Refusal;

// A file whose head is right: none of the head's refusals applies to it.
#[derive(Clone, Copy)]
pub struct CircuitFile<'a> {
    pub file: &'a [u8],
    ghost right: { first_of (head_rows file.now) ≡ 0 },
}

impl<'a> CircuitFile<'a> {
    // The file, where its head is right, and otherwise why it is not: refusals 12, 11, 1, 2.
    pub fn open(file: &'a [u8]) -> Result<CircuitFile<'a>, Refusal>
        ensures answer { answer_to result ≡ answer_of (head_rows file.now) }
        ensures opened { IfOk result (λ c. c.file.now ≡ file.now) }
    {
        check_head(file)?;
        Ok(CircuitFile { file })
    }
}

impl<'a> Gates for CircuitFile<'a> {
    ghost lent = { λ c. as_records (file_gates c.file.now) };

    ghost sized = { λ c e. refl };

    #[tactic(auto, using(crate::specs::Settled::length_gates))]
    fn count(&self) -> usize {
        gate_count(self.file)
    }

    fn is_uneven(&self) -> bool {
        false
    }

    #[tactic(auto, using(crate::specs::Settled::few_gates, crate::specs::Settled::gate_within, crate::specs::Settled::gate_lent), unfolding(circuitfile::specs::File::file_gate, circuitfile::specs::File::field, circuitfile::specs::File::big_endian, whole::specs::Lists::tabulate))]
    fn gate(&self, g: usize) -> Gate {
        // By index, where the fields of any file are tested byte for byte: the five bytes of a gate are there, and planning asks for each gate twice.
        let at = HEAD + 5 * g;
        let left = [self.file[at + 1], self.file[at + 2]];
        let right = [self.file[at + 3], self.file[at + 4]];
        Gate {
            kind: u32::from(self.file[at]),
            left: u32::from(u16::from_be_bytes(left)),
            right: u32::from(u16::from_be_bytes(right)),
        }
    }
}
