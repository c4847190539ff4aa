// The bench key of document 01: the switching key of sheet 1 as four rows of sixteen, by value, and its check call. Both are the switching key maker on a buffer of
// zeros, so that they refuse what it refuses, and a refusal leaves the zeros.
#![tactic(auto)]

ghost use Rattle.std.specs.Prelude.{◌≡◌};
ghost use Rattle.refusal.specs.Answer.{answer_to};
ghost use Rattle.refusal.specs.Parameters.{sheet};
ghost use Rattle.scheme.specs.Calls.{BenchCheckPromise, BenchKeyPromise};

use refusal::{Params, Refusal};
use switchingkey::make_switching_key;

// Sheet 1.
#[tactic(auto, unfolding(refusal::specs::Parameters::sheet, refusal::specs::Parameters::sheets, refusal::specs::Parameters::sheet_table))]
fn bench_sheet() -> Params
    ensures { result ≡ sheet 1 }
{
    Params {
        n: 4,
        q: 65536,
        l: 4,
        e: 2,
        f: 1,
    }
}

// Why the bench key maker refuses the same loans: 3, 4, 6, 7.
pub fn check_bench_key(s: &[i32], masks: &[i64], errors: &[i64]) -> Result<(), Refusal>
    ensures { BenchCheckPromise s.now masks.now errors.now (answer_to result) }
{
    // The 64 entries of sheet 1's switching key, and an array, since nothing allocates.
    let mut room = [0i64; 64];
    make_switching_key(bench_sheet(), s, masks, errors, &mut room)
}

// The bench key: the switching key of sheet 1 as four rows of sixteen, by value; all zeros on a refusal.
pub fn make_bench_key(s: &[i32], masks: &[i64], errors: &[i64]) -> [[i64; 16]; 4]
    ensures { BenchKeyPromise s.now masks.now errors.now result }
{
    // As many, an array again. A refused key is the zeros that it finds.
    let mut key = [0i64; 64];
    let _ = make_switching_key(bench_sheet(), s, masks, errors, &mut key);
    let (rows, _) = key.as_chunks::<16>();
    [rows[0], rows[1], rows[2], rows[3]]
}
