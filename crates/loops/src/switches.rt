ghost use Rattle.std.specs.Prelude.{◌≡◌, cond, length};
ghost use Rattle.scheme.specs.Arithmetic.{switch};
ghost use Rattle.loops.specs.Lent.{switch_lent, after_runs};

use crate::modulus::is_modulus;
use passes::range::{all_big_residues, all_residues};
use scheme::Modulus;
use switch::fill_switch;

// Whether t and a switching key are what a switch to n entries asks for.
#[tactic(auto, using(std::proofs::lemmas::Bool::Decides::nat_tests), unfolding(crate::specs::Lent::switch_lent))]
fn switch_lent(q: u32, t: &[i64], key: &[i64], n: usize) -> bool
    ensures { result ≡ switch_lent q t.now key.now n }
{
    is_modulus(q)
        && n <= 1024
        && t.len() == n * n
        && key.len() == n * t.len()
        && all_residues(t, Modulus::of(q))
        && all_big_residues(key, Modulus::of(q))
}

// Switches t `times` times into `out` and answers 1; 0 where a loan is not right, and then nothing is written.
#[unsafe(no_mangle)]
pub extern "C" fn bench_switch(q: u32, t: &[i64], key: &[i64], out: &mut [i64], times: u32) -> u32
    ensures answer { result ≡ cond (switch_lent q t.now key.now (length out.old)) 1 0 }
    ensures buffer { out.new ≡ cond (switch_lent q t.now key.now (length out.old)) (after_runs times (switch (length out.old) q key.now t.now) out.old) out.old }
{
    if !switch_lent(q, t, key, out.len()) {
        return 0;
    }
    let modulus = Modulus::of(q);
    for _ in 0..times {
        fill_switch(modulus, t, key, out);
    }
    1
}
