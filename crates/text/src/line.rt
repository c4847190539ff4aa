// The lines of the printed text.
ghost use Rattle.std.specs.Prelude.{◌≡◌, [], ◌∷◌, ◌++◌, ◌+◌, ◌≤◌, ◌<◌, length};
ghost use Rattle.circuitfile.specs.File.{file_inputs, file_gate_count};
ghost use Rattle.circuitfile.specs.Text.{wire_line, kind_word};
ghost use Rattle.circuitfile.specs.Lines.{pair_line};

use crate::page::Page;
use checks::lent::Gates;
use circuit::kind::Kind;
use filehead::inputs;
use gatfile::CircuitFile;

// IN for an input, and XOR, AND or NOT for a gate; and a space.
fn kind(circuit: CircuitFile<'_>, wire: usize) -> &'static [u8]
    requires { wire < file_inputs circuit.file.now + file_gate_count circuit.file.now }
    ensures word { result.now ≡ kind_word circuit.entry.file.now wire ++ (32 ∷ []) }
    ensures length { length result.now ≤ 4 }
{
    let from = inputs(circuit.file) as usize;
    if wire < from {
        return b"IN ";
    }
    match Kind::of(circuit.gate(wire - from).kind) {
        Kind::Xor => b"XOR ",
        Kind::And => b"AND ",
        Kind::Not => b"NOT ",
    }
}

// The line of a wire: wire, kind, bound. It has at most 20 bytes.
#[tactic(auto, using(crate::proofs::Digits::few_digits, circuitfile::specs::Lines::word_few), unfolding(circuitfile::specs::Text::wire_line))]
pub fn put_wire(page: &mut Page<'_>, circuit: CircuitFile<'_>, wire: usize, bound: u32)
    requires { (wire < file_inputs circuit.file.now + file_gate_count circuit.file.now) × (length page.old + 20 ≤ 102432) }
    ensures line { page.new ≡ page.old ++ wire_line wire (kind_word circuit.entry.file.now wire) bound }
    ensures line_length { length page.new ≤ length page.old + 20 }
{
    // std has no From of usize to u64
    page.put_field(wire as u64, b' ');
    page.put(kind(circuit, wire));
    page.put_field(u64::from(bound), b'\n');
}

// A word, with its space, and two numbers: the last line. It has at most 32 bytes.
#[tactic(auto, using(circuitfile::specs::Lines::word_few), unfolding(circuitfile::specs::Lines::pair_line))]
pub fn put_pair(page: &mut Page<'_>, word: &[u8], x: u64, y: u64)
    requires { (length word.now ≤ 8) × (x < 4294967296) × (y < 4294967296) × (length page.old + 32 ≤ 102432) }
    ensures { page.new ≡ page.old ++ pair_line word.now x y }
{
    page.put(word);
    page.put_field(x, b' ');
    page.put_field(y, b'\n');
}
