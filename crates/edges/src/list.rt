// The cases on lists of entries.
ghost use Rattle.std.specs.Prelude.{◌≡◌, IfSome, length};
ghost use Rattle.scheme.specs.Arithmetic.{tensor as Arithmetic·tensor, switch as Arithmetic·switch, switch_entry as Arithmetic·switch_entry};

use crate::MADE;
use passes::range::{all_big_residues, all_residues};
use scheme::Modulus;
use switch::{fill_switch, switch_entry};
use tensor::fill_tensor;

// 5: the tensor of c and d
pub fn tensor<'a>(q: Modulus, c: &[i64], d: &[i64], made: &'a mut [i64; MADE]) -> Option<&'a [i64]>
    ensures { IfSome result (λ t. t.now ≡ Arithmetic·tensor q c.now d.now) }
{
    if c.len() > 1024 || d.len() > 1024 || !all_residues(c, q) || !all_residues(d, q) {
        return None;
    }
    let n = c.len() * d.len();
    let out = made.get_mut(..n)?;
    fill_tensor(q, c, d, out);
    Some(out)
}

// 6: the switched entry of a tensor t and a row of the key
pub fn switched(q: Modulus, t: &[i64], row: &[i64]) -> Option<i64>
    ensures { IfSome result (λ x. x ≡ Arithmetic·switch_entry q t.now row.now) }
{
    if row.len() != t.len() || t.len() > 1048576 {
        return None;
    }
    if !all_residues(t, q) || !all_big_residues(row, q) {
        return None;
    }
    Some(switch_entry(q, t, row).value())
}

// 7: the n switched entries of a tensor t and a key of n rows
pub fn switch<'a>(
    q: Modulus,
    n: usize,
    t: &[i64],
    key: &[i64],
    made: &'a mut [i64; MADE],
) -> Option<&'a [i64]>
    ensures { IfSome result (λ xs. xs.now ≡ Arithmetic·switch n q key.now t.now) }
{
    if n > 1024 || t.len() != n * n || key.len() != n * t.len() {
        return None;
    }
    if !all_residues(t, q) || !all_big_residues(key, q) {
        return None;
    }
    let out = made.get_mut(..n)?;
    fill_switch(q, t, key, out);
    Some(out)
}
