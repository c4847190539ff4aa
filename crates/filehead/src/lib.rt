// The head of a circuit file, its first 23 bytes, and the refusals before those of the gates. The readers take any file: past its end every byte is 0.
#![tactic(auto)]

pub mod field;

ghost use Rattle.std.specs.Prelude.{◌≡◌, ◌+◌, ◌<◌};
ghost use Rattle.refusal.specs.Answer.{answer_to};
ghost use Rattle.refusal.specs.First.{answer_of};
ghost use Rattle.circuitfile.specs.File.{file_params, file_inputs, file_gate_count, is_known, head_rows};

use checks::are_bad_counts;
use field::{four, two};
use refusal::{Params, Refusal, refuse_if};

// The length of the head.
pub const HEAD: usize = 23;

// Whether the file begins with the mark GAT and version 1.
pub fn is_known(file: &[u8]) -> bool
    ensures { result ≡ is_known file.now }
{
    file.starts_with(b"GAT") && two(file, 3) == 1
}

// n, q, L, E and F.
#[tactic(auto, unfolding(circuitfile::specs::File::file_params))]
pub fn params(file: &[u8]) -> Params
    ensures { result ≡ file_params file.now }
{
    Params {
        n: two(file, 5),
        q: four(file, 7),
        l: two(file, 11),
        e: four(file, 13),
        f: two(file, 17),
    }
}

// How many inputs the file has.
#[tactic(auto, unfolding(circuitfile::specs::File::file_inputs))]
pub fn inputs(file: &[u8]) -> u32
    ensures { (result ≡ file_inputs file.now) × (result < 65536) }
{
    two(file, 19)
}

// How many gates the file has.
#[tactic(auto, unfolding(circuitfile::specs::File::file_gate_count))]
pub fn gate_count(file: &[u8]) -> usize
    ensures { (result ≡ file_gate_count file.now) × (result < 65536) }
{
    two(file, 21) as usize
}

// How many wires the file has: its inputs, and one for each gate.
pub fn wire_count(file: &[u8]) -> usize
    ensures { (result ≡ file_inputs file.now + file_gate_count file.now) × (result < 131072) }
{
    inputs(file) as usize + gate_count(file)
}

// The refusals of the head: 12 under 23 bytes, then 11, 1, 2, and 12 where the length is not that of the gates.
pub fn check_head(file: &[u8]) -> Result<(), Refusal>
    ensures { answer_to result ≡ answer_of (head_rows file.now) }
{
    refuse_if(file.len() < HEAD, Refusal::FileLength)?;
    refuse_if(!is_known(file), Refusal::Mark)?;
    refuse_if(!params(file).in_range(), Refusal::Parameters)?;
    let gates = gate_count(file);
    refuse_if(are_bad_counts(inputs(file), gates), Refusal::Counts)?;
    refuse_if(file.len() != HEAD + 5 * gates, Refusal::FileLength)
}
