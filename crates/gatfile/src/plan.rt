// The file check and planning, on the bytes of a circuit file.
ghost use Rattle.std.specs.Prelude.{◌≡◌, ◌*◌, ◌<◌, length};
ghost use mathlib.Core.List.{flat_map};
ghost use Rattle.refusal.specs.Answer.{answer_to};
ghost use Rattle.circuitfile.specs.File.{as_one, four_bytes, plan_file_buffer, CheckPromise, PlanFilePromise};
ghost use Rattle.circuitfile.specs.Order.{check_refusal, plan_refusal};

use crate::lent::CircuitFile;
use crate::settle::{WIRES, settle};
use filehead::wire_count;
use refusal::{Refusal, refuse_if};

// 65,536 times the number plus the place: one number, since C takes the answers of `check` and `plan` so (include/olwyddreg.h).
fn as_one<T: Drop>(answer: Result<T, Refusal>) -> u64
    requires { (answer_to answer).place < 65536 }
    ensures { result ≡ as_one (answer_to answer) }
{
    match answer {
        Ok(_) => 0,
        Err(r) => 65536 * u64::from(r.number()) + r.place(),
    }
}

// Writes each bound as four big-endian bytes. `out` is indexed, since once chunks_mut gives it back a proof knows its length and not its elements.
fn write_bounds(bounds: &[u32], out: &mut [u8])
    requires { length out.old ≡ 4 * length bounds.now }
    ensures { out.new ≡ flat_map four_bytes bounds.now }
{
    for (i, bound) in bounds.iter().enumerate() {
        out[4 * i..4 * i + 4].copy_from_slice(&bound.to_be_bytes());
    }
}

// Planning, which answers why it refuses.
fn planned(file: &[u8], bounds: &mut [u8]) -> Result<(), Refusal>
    ensures answer { answer_to result ≡ plan_refusal file.now bounds.old }
    ensures bounds_after { bounds.new ≡ plan_file_buffer file.now bounds.old }
{
    let circuit = CircuitFile::open(file)?;
    let wires = wire_count(file);
    refuse_if(bounds.len() != 4 * wires, Refusal::Length)?;
    let mut table = [0; WIRES];
    settle(circuit, &mut table[..wires])?;
    write_bounds(&table[..wires], bounds);
    Ok(())
}

// The check, which answers why it refuses. The table is made here, once the head is right, and goes no further: one that is answered is copied, and
// is made before the head is looked at.
fn checked(file: &[u8]) -> Result<(), Refusal>
    ensures { answer_to result ≡ check_refusal file.now }
{
    let circuit = CircuitFile::open(file)?;
    let mut table = [0; WIRES];
    settle(circuit, &mut table[..wire_count(file)])
}

// The check of a circuit file through its whole order, 10 included: 65,536 times the number plus the place.
pub fn check(file: &[u8]) -> u64
    ensures { CheckPromise file.now result }
{
    as_one(checked(file))
}

// Planning on a circuit file: every wire's bound, four big-endian bytes each, and the same answer. 3 for the buffer's length comes after the
// file's 12 and before 9.
pub fn plan(file: &[u8], bounds: &mut [u8]) -> u64
    ensures { PlanFilePromise file.now bounds.old result bounds.new }
{
    as_one(planned(file, bounds))
}
