// The printed text of a circuit file, into a lent buffer. Nothing here allocates: a page is an array with room for any text.
#![tactic(auto)]

mod line;
mod page;

ghost use Rattle.std.specs.Prelude.{◌≡◌, [], ◌++◌, ◌≤◌, length};
ghost use Rattle.circuitfile.specs.File.{file_bounds};
ghost use Rattle.circuitfile.specs.Text.{wire_lines, ok_line, printed_of, TextPromise};
ghost use Rattle.circuitfile.specs.Text.{text as file_text};

use crate::line::{put_pair, put_wire};
use crate::page::Page;
pub use crate::page::ROOM;
use filehead::{params, wire_count};
use gatfile::{CircuitFile, bounds};
use refusal::Refusal;

// The lines of all wires.
fn put_wires(page: &mut Page<'_>, circuit: CircuitFile<'_>, bounds: &[u32])
    requires { (page.old ≡ []) × (bounds.now ≡ file_bounds circuit.file.now) }
    ensures lines { page.new ≡ wire_lines circuit.entry.file.now }
    ensures lines_length { length page.new ≤ 102400 }
{
    for (wire, bound) in bounds.iter().enumerate() {
        put_wire(page, circuit, wire, *bound);
    }
}

// The text of a file that is not refused: the lines of all wires, then the output's bound and the largest bound that fits.
fn put_bounds(page: &mut Page<'_>, circuit: CircuitFile<'_>, bounds: &[u32])
    requires { (page.old ≡ []) × (bounds.now ≡ file_bounds circuit.file.now) }
    ensures { page.new ≡ wire_lines circuit.entry.file.now ++ ok_line circuit.entry.file.now }
{
    put_wires(page, circuit, bounds);
    // by index, since `last` answers an Option: a file whose head is right has a wire; by `as`, since with u64::from the answer stayed open
    let output = bounds[bounds.len() - 1];
    let largest = (params(circuit.file).q - 1) / 4;
    put_pair(page, b"OK ", output as u64, largest as u64);
}

// The text of any file, on an empty page.
fn put_text(page: &mut Page<'_>, file: &[u8])
    requires { page.old ≡ [] }
    ensures { page.new ≡ file_text file.now }
{
    match bounds(file) {
        // made here and not opened again: `bounds` answers a table only where the head is right
        Ok(table) => put_bounds(page, CircuitFile { file }, &table[..wire_count(file)]),
        Err(r) => put_pair(page, b"REFUSED ", u64::from(r.number()), r.place()),
    }
}

// Writes the text at the front of the buffer and answers its length. A buffer that is shorter than the text is refused with 3, and nothing is
// written. No text is longer than 102,432 bytes.
pub fn text(file: &[u8], out: &mut [u8]) -> Result<usize, Refusal>
    ensures promise { TextPromise file.now out.old (printed_of result) out.new }
    ensures length_high { length (file_text file.now) ≤ 102432 }
{
    let mut room = [0; ROOM];
    let mut page = Page::new(&mut room);
    put_text(&mut page, file);
    let text = page.text();
    // by `if`, not as a row by `refuse_if`: an edit can then turn the answer alone
    if out.len() < text.len() {
        return Err(Refusal::Length);
    }
    out[..text.len()].copy_from_slice(text);
    Ok(text.len())
}
