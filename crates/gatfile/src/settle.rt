// The gates of a file whose head is right, and the bounds of its wires.
ghost use Rattle.std.specs.Prelude.{◌≡◌, ◌+◌, IfOk, length};
ghost use Rattle.refusal.specs.Answer.{answer_to};
ghost use Rattle.circuitfile.specs.File.{file_inputs, file_gate_count};
ghost use Rattle.circuitfile.specs.Order.{gate_answer};
ghost use Rattle.gatfile.specs.Settled.{settled_bounds, bounds_table, bounds_told, bounds_answer};

use crate::lent::CircuitFile;
use filehead::{inputs, params, wire_count};
use refusal::Refusal;

// The most wires of a circuit.
pub const WIRES: usize = 5120;

// Plans the circuit of the file, whose inputs all start at bound E: fills the table with the bounds of all wires. Refusals 9 and 10, with the gate
// as place.
pub fn settle(circuit: CircuitFile<'_>, table: &mut [u32]) -> Result<(), Refusal>
    requires { length table.old ≡ file_inputs circuit.file.now + file_gate_count circuit.file.now }
    ensures answer { answer_to result ≡ gate_answer circuit.entry.file.now }
    ensures table_after { table.new ≡ settled_bounds circuit.entry.file.now table.old }
{
    let p = params(circuit.file);
    let count = inputs(circuit.file);
    table[..count as usize].fill(p.e);
    planning::plan(p, count, &circuit, table)
}

// The bounds of all wires, at the front of a table that is 0 elsewhere.
pub fn all_bounds(circuit: CircuitFile<'_>) -> Result<[u32; WIRES], Refusal>
    ensures answer { answer_to result ≡ gate_answer circuit.entry.file.now }
    ensures table { IfOk result (λ t. t ≡ bounds_table circuit.entry.file.now) }
{
    let mut table = [0; WIRES];
    settle(circuit, &mut table[..wire_count(circuit.file)])?;
    Ok(table)
}

// The check of a file: the bounds of all wires, at the front of a table that is 0 elsewhere.
pub fn bounds(file: &[u8]) -> Result<[u32; WIRES], Refusal>
    ensures { bounds_told result ≡ bounds_answer file.now }
{
    all_bounds(CircuitFile::open(file)?)
}
