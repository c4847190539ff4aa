ghost use Rattle.std.specs.Prelude.{◌≡◌, ◌*◌, ◌<◌, ◌≤◌, length};
ghost use Rattle.whole.specs.Inner.{inner, sizes, column};
ghost use Rattle.whole.specs.Lists.{cut};
ghost use Rattle.scheme.specs.Loans.{UpTo};

// The sum of the sizes of a key's entries, the least number included. It never wraps.
pub fn sum_of_sizes(s: &[i32]) -> u64
    requires { length s.now ≤ 1024 }
    ensures { result ≡ sizes s.now }
{
    s.iter().map(|x| u64::from(x.unsigned_abs())).sum()
}

// <s,c> of a key, whose sizes sum to at most 4,096, and entries of at most 2^39: every sum on the way is at most 2^51.
pub fn inner_product(s: &[i32], c: &[i64]) -> i64
    requires { (length s.now ≡ length c.now) × (sizes s.now ≤ 4096) × UpTo 549755813888 c.now }
    ensures { result ≡ inner s.now c.now }
{
    let mut sum = 0;
    for (x, y) in s.iter().zip(c) {
        sum += i64::from(*x) * *y;
    }
    sum
}

// <s,column j> of a table that lies row by row, one row of `width` entries for each entry of s. Read by place, so that the pass has one exit and is
// unrolled: rows in step with s give it two, and a division at its start.
pub fn inner_column(s: &[i32], table: &[i64], width: usize, j: usize) -> i64
    requires { (length table.now ≡ length s.now * width) × (j < width) × (sizes s.now ≤ 4096) × UpTo 549755813888 table.now }
    ensures { result ≡ inner s.now (column j (cut width (length s.now) table.now)) }
{
    let mut sum = 0;
    for (i, x) in s.iter().enumerate() {
        sum += i64::from(*x) * table[i * width + j];
    }
    sum
}
