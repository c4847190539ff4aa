// The cases on keys, whose entries are of 32 bits: they lie in an array of the largest size, since nothing here allocates.
ghost use Rattle.std.specs.Prelude.{◌≡◌, ◌≤◌, IfSome, length, pos};
ghost use Rattle.whole.specs.Inner.{sizes, inner, column as column_of};
ghost use Rattle.whole.specs.Lists.{cut};

use crate::guard;
use passes::key::{inner_column, inner_product, sum_of_sizes};

// The most entries of a key.
const KEY: usize = 1024;

// The largest size of an entry that a key is multiplied by: 2^39.
const ENTRY: u64 = 549755813888;

// 11: the sum of the sizes of a key's entries
pub fn sum(s: &[i64]) -> Option<i64>
    ensures { IfSome result (λ x. x ≡ pos (sizes s.now)) }
{
    let mut small = [0i32; KEY];
    i64::try_from(sum_of_sizes(key(s, &mut small)?)).ok()
}

// 12: <s,c>
#[tactic(auto, using(crate::specs::Guard::up_to))]
pub fn product(s: &[i64], c: &[i64]) -> Option<i64>
    ensures { IfSome result (λ x. x ≡ inner s.now c.now) }
{
    let mut small = [0i32; KEY];
    let s = key(s, &mut small)?;
    if s.len() != c.len() || !guard::is_small(s) || !guard::all_up_to(ENTRY, c) {
        return None;
    }
    Some(inner_product(s, c))
}

// 13: <s,column j> of a table that lies row by row, of `width` columns
#[tactic(auto, using(crate::specs::Guard::up_to))]
pub fn column(width: usize, j: usize, s: &[i64], table: &[i64]) -> Option<i64>
    ensures { IfSome result (λ x. x ≡ inner s.now (column_of j (cut width (length s.now) table.now))) }
{
    let mut small = [0i32; KEY];
    let s = key(s, &mut small)?;
    if width > 65536 || j >= width || table.len() != s.len() * width {
        return None;
    }
    if !guard::is_small(s) || !guard::all_up_to(ENTRY, table) {
        return None;
    }
    Some(inner_column(s, table, width, j))
}

// A key's entries in 32 bits, where all of them have room there and they are no more than KEY.
fn key<'a>(s: &[i64], small: &'a mut [i32; KEY]) -> Option<&'a [i32]>
    ensures { IfSome result (λ k. (k.now ≡ s.now) × (length s.now ≤ 1024)) }
{
    if s.len() > KEY {
        return None;
    }
    let small = &mut small[..s.len()];
    if !guard::narrow(s, small) {
        return None;
    }
    Some(small)
}
