ghost use Rattle.std.specs.Prelude.{◌≡◌, cond, length};
ghost use Rattle.scheme.specs.Arithmetic.{tensor};
ghost use Rattle.loops.specs.Lent.{tensor_lent, after_runs};

use crate::modulus::is_modulus;
use passes::range::all_residues;
use scheme::Modulus;
use tensor::fill_tensor;

// Whether c and d are two ciphertexts whose tensor has `entries` entries.
#[tactic(auto, using(std::proofs::lemmas::Bool::Decides::nat_tests), unfolding(crate::specs::Lent::tensor_lent))]
fn tensor_lent(q: u32, c: &[i64], d: &[i64], entries: usize) -> bool
    ensures { result ≡ tensor_lent q c.now d.now entries }
{
    is_modulus(q)
        && c.len() <= 1024
        && d.len() <= 1024
        && entries == c.len() * d.len()
        && all_residues(c, Modulus::of(q))
        && all_residues(d, Modulus::of(q))
}

// Makes the tensor of c and d `times` times in `out` and answers 1; 0 where a loan is not right, and then nothing is written.
#[unsafe(no_mangle)]
pub extern "C" fn bench_tensor(q: u32, c: &[i64], d: &[i64], out: &mut [i64], times: u32) -> u32
    ensures answer { result ≡ cond (tensor_lent q c.now d.now (length out.old)) 1 0 }
    ensures buffer { out.new ≡ cond (tensor_lent q c.now d.now (length out.old)) (after_runs times (tensor q c.now d.now) out.old) out.old }
{
    if !tensor_lent(q, c, d, out.len()) {
        return 0;
    }
    let modulus = Modulus::of(q);
    for _ in 0..times {
        fill_tensor(modulus, c, d, out);
    }
    1
}
