// The bound of AND: document 01's *AND*. It is worked out by numbers alone, so that planning needs nothing of the arithmetic on entries.
#![tactic(auto)]

ghost use Rattle.std.specs.Prelude.{◌≡◌, ◌≤◌};
ghost use Rattle.scheme.specs.Arithmetic.{AND_bound};
ghost use Rattle.bound.specs.Ready.{AndBoundReady};

use refusal::Params;

// The bound of AND, with its two divisions rounded down by themselves. It can pass 32 bits before it is refused.
pub fn and_bound(p: Params, b1: u32, b2: u32) -> u64
    requires { AndBoundReady p b1 b2 }
    ensures { (result ≡ AND_bound p.n p.q p.l p.f b1 b2) × (result ≤ 1099511627776) }
{
    let n = p.n as u64;
    let q = p.q as u64;
    let l = p.l as u64;
    let f = p.f as u64;
    let x = b1 as u64;
    let y = b2 as u64;
    let product = (2 * q * l * (x + y) + 4 * x * y + q * (l * l)) / (2 * q);
    product + (n * n * f + l) / 2
}
