// Tests at run time of what the functions of `modular`, `passes`, `tensor` and `switch` require.
ghost use Rattle.std.specs.Prelude.{◌≡◌, ◌≤◌, leb, length};
ghost use Rattle.whole.specs.Inner.{sizes};
ghost use Rattle.whole.specs.Lists.{every};
ghost use Rattle.stream.specs.Bounds.{CountIn};
ghost use Rattle.stream.specs.Front.{front};
ghost use Rattle.stream.specs.Ranges.{is_narrow};
ghost use Rattle.edges.specs.Guard.{is_up_to, as_modulus, as_count, leading};

use scheme::Modulus;

// q where it is a modulus: even, and from 2 to 2^20. `is_modulus` of `loops` begins at 16, as document 01 does: the two share no more than a line.
#[tactic(auto, unfolding(crate::specs::Guard::as_modulus, crate::specs::Guard::is_modulus, stream::specs::Ranges::inside))]
pub fn modulus(q: i64) -> Option<Modulus>
    ensures { result ≡ as_modulus q }
{
    let Ok(m) = u32::try_from(q) else {
        return None;
    };
    if m == 0 || m > 1048576 || m % 2 == 1 {
        return None;
    }
    Some(Modulus::of(m))
}

// x where it counts or places entries: from 0 to 65,536.
#[tactic(auto, unfolding(crate::specs::Guard::as_count, stream::specs::Ranges::inside))]
pub fn count(x: i64) -> Option<usize>
    ensures { result ≡ as_count x }
{
    match usize::try_from(x) {
        Ok(n) if n <= 65536 => Some(n),
        _ => None,
    }
}

// Whether x is at most `most` in size.
#[tactic(auto, unfolding(crate::specs::Guard::is_up_to))]
pub fn is_up_to(most: u64, x: i64) -> bool
    ensures { result ≡ is_up_to most x }
{
    x.unsigned_abs() <= most
}

// Whether every entry is.
pub fn all_up_to(most: u64, xs: &[i64]) -> bool
    ensures { result ≡ every (is_up_to most) xs.now }
{
    xs.iter().all(|x| is_up_to(most, *x))
}

// Whether the sizes of a key's entries sum to at most 4,096, as `inner_product` and `inner_column` require.
pub fn is_small(s: &[i32]) -> bool
    requires { length s.now ≤ 1024 }
    ensures { result ≡ leb (sizes s.now) 4096 }
{
    passes::key::sum_of_sizes(s) <= 4096
}

// Copies numbers of 32 bits to the front of `to`, up to the first that is none, and tells whether all of them are. `to` is
// indexed, since after a zip of iter_mut a proof knows its length and not its elements.
pub fn narrow(from: &[i64], to: &mut [i32]) -> bool
    requires { length from.now ≤ length to.old }
    ensures value { result ≡ every is_narrow from.now }
    ensures to_after { to.new ≡ front (leading is_narrow from.now) to.old }
    ensures count_in { CountIn (length from.now) to.new }
{
    for (i, x) in from.iter().enumerate() {
        let Ok(small) = i32::try_from(*x) else {
            return false;
        };
        to[i] = small;
    }
    true
}
