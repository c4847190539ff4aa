// Whole numbers in from a reader, through a block that is lent, and out to a writer, through one of its own. Each function
// that another crate can call is safe and ends, given that each read and write returns, and none has a `requires`.
#![tactic(auto)]

mod input;
mod output;

pub use input::{Input, Numbers};
pub use output::{Output, decimal};

// The bytes of an output's block, an array with its count beside it, for nothing here allocates; and the most that an input
// uses of the block that it is lent.
const BLOCK: usize = 65536;

#[cfg(test)]
mod tests;
