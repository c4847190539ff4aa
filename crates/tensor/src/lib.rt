// The tensor of document 01's *Arithmetic* in code, proved to give the definition's entries.
#![tactic(auto)]

ghost use Rattle.std.specs.Prelude.{◌≡◌, true, map, ◌*◌, ◌≤◌, pos, length};
ghost use Rattle.whole.specs.Lists.{every};
ghost use Rattle.scheme.specs.Arithmetic.{is_residue, tensor_entry, tensor};
ghost use Rattle.tensor.specs.Lines.{reciprocal_of};

use modular::residue::Residue;
use scheme::Modulus;

// The row of the tensor for one entry x on the left. The quotients 2·x·y/q lie on a line over y: its slope, with 42 binary places, takes a
// product and a shift, and the row takes no division. The base holds the half of rounding, and q more, which the slope's error does not reach.
fn fill_row(q: Modulus, x: i64, reciprocal: i64, d: &[i64], out: &mut [i64])
    requires { (is_residue q x ≡ true) × (reciprocal ≡ pos (reciprocal_of q)) × (every (is_residue q) d.now ≡ true) × (length out.old ≡ length d.now) }
    ensures { out.new ≡ map (tensor_entry q x) d.now }
{
    let base = 2199023255552 + (q.get() as i64);
    let slope = (x * reciprocal) >> 20;
    // out by index: tried by a zip, and what a zip of what is written leaves in the buffer is known to no proof, so that what the function ensures was left open.
    for (v, y) in d.iter().enumerate() {
        out[v] = Residue::up_to_half((slope * *y + base) >> 42, q).value();
    }
}

// All entries of the tensor of two ciphertexts: entry u·n+v is that of entry u on the left and entry v on the right. It has one division.
pub fn fill_tensor(q: Modulus, c: &[i64], d: &[i64], out: &mut [i64])
    requires { (every (is_residue q) c.now ≡ true) × (every (is_residue q) d.now ≡ true) × (length out.old ≡ length c.now * length d.now) × (length c.now ≤ 1024) × (length d.now ≤ 1024) }
    ensures entries { out.new ≡ tensor q c.now d.now }
    ensures residues { every (is_residue q) out.new ≡ true }
{
    let reciprocal = 4611686018427387904 / ((q.get() / 2) as i64);
    let n = d.len();
    // A row by its place: of what an iterator of chunks leaves in the buffer a proof knows the length alone, and it asks a width above 0, where d may be empty.
    for (u, x) in c.iter().enumerate() {
        let at = u * n;
        fill_row(q, *x, reciprocal, d, &mut out[at..at + n]);
    }
}
