// One pass over a lent buffer each: the tests of a range, the sum of a key's sizes, and inner products with a key. Each is proved to give the value
// that document 01's *Arithmetic* defines. What a pass asks of a lent buffer stands in its contract and is no type's: no two functions, here or in the tensor and the
// switch, ask the same.
#![tactic(auto)]

pub mod key;
pub mod range;
