ghost use Rattle.std.specs.Prelude.{◌≡◌, cond};
ghost use Rattle.loops.specs.Lent.{big_residues};

use crate::modulus::is_modulus;
use passes::range::all_big_residues;
use scheme::Modulus;

// How many of `times` range checks of a switching key answered true; 0 where q is no modulus.
#[unsafe(no_mangle)]
pub extern "C" fn bench_range(q: u32, key: &[i64], times: u32) -> u32
    ensures { result ≡ cond (big_residues q key.now) times 0 }
{
    if !is_modulus(q) {
        return 0;
    }
    let modulus = Modulus::of(q);
    let mut found: u32 = 0;
    for _ in 0..times {
        found += u32::from(all_big_residues(key, modulus));
    }
    found
}
