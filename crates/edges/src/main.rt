// Runs the functions of `modular`, `tensor` and `switch` on numbers from standard input, case after case, and writes what each gives. The independent
// program (oracle/edges.py) writes the input, and what must come out.
//
// A case is its number and its operands, numbers first and lists last. A list is its count and its entries.
//
//      1  q x              [x]q                      modular::residue::Residue::of
//      2  q x              [x]Q                      modular::big_residue::BigResidue::of
//      3  q a              round(a/q)                modular::round::round_quotient
//      4  q x y            an entry of the tensor    tensor::fill_tensor
//      5  q c d            the tensor                tensor::fill_tensor
//      6  q t row          a switched entry          switch::switch_entry
//      7  q n t key        the n switched entries    switch::fill_switch
//      8  q xs             1 or 0                    passes::range::all_residues
//      9  q xs             1 or 0                    passes::range::all_big_residues
//     10  limit xs         1 or 0                    passes::range::all_within
//     11  s                the sum of sizes          passes::key::sum_of_sizes
//     12  s c              <s,c>                     passes::key::inner_product
//     13  width j s table  <s,column j>              passes::key::inner_column
//
// The first list of a case holds up to 4,096 entries and its second up to 40,960, and a list that is made up to 4,096. Each case has one line: its results, with a
// space after each, or the word refused, where the function does not take the operands: each requirement is tested at run time before the call. A case number
// that is none of these is refused too, and has no operands. The program ends at the end of the input, and where an operand is missing or cannot be read.
// Nothing here allocates: each list lies in an array of the largest size.
#![tactic(auto)]

mod case;
mod guard;
mod key;
mod list;
mod print;

use Answer::{Number, Numbers};
use case::Case;
use guard::{count, is_up_to, modulus};
use modular::big_residue::BigResidue;
use modular::residue::Residue;
use modular::round::round_quotient;
use passes::range::{all_big_residues, all_residues, all_within};
use scheme::Modulus;
use std::io::{Read, Write};
use stream::{Input, Output};

// The most cases. A proved loop has to end, and nothing says that the input does.
const MOST: usize = 65536;

// The most entries of a first list, of a second one, and of a list that is made.
const FIRST: usize = 4096;

const SECOND: usize = 40960;

const MADE: usize = 4096;

// What a case answers: a number, or numbers.
#[derive(Clone, Copy)]
pub enum Answer<'a> {
    Number(i64),
    Numbers(&'a [i64]),
}

// What a case answers, and None where the function does not take its operands.
fn answer_to<'a>(case: Case, made: &'a mut [i64; MADE]) -> Option<Answer<'a>> {
    Some(match case {
        Case::Residue { q, x } => Number(Residue::of(x, modulus(q)?).value()),
        Case::BigResidue { q, x } => Number(BigResidue::of(x, modulus(q)?).big_value()),
        Case::Rounded { q, a } => Number(rounded(modulus(q)?, a)?),
        // the tensor of two lists of one entry
        Case::TensorEntry { q, x, y } => Numbers(list::tensor(modulus(q)?, &[x], &[y], made)?),
        Case::Tensor { q, c, d } => Numbers(list::tensor(modulus(q)?, c, d, made)?),
        Case::Switched { q, t, row } => Number(list::switched(modulus(q)?, t, row)?),
        Case::Switch { q, n, t, key } => Numbers(list::switch(
            modulus(q)?,
            count(n)?,
            t,
            key,
            made,
        )?),
        Case::Residues { q, xs } => Number(i64::from(all_residues(xs, modulus(q)?))),
        Case::BigResidues { q, xs } => Number(i64::from(all_big_residues(xs, modulus(q)?))),
        // a limit is a number of 32 bits, from 0 up
        Case::Within { limit, xs } => Number(i64::from(all_within(xs, u32::try_from(limit).ok()?))),
        Case::Sum { s } => Number(key::sum(s)?),
        Case::Product { s, c } => Number(key::product(s, c)?),
        Case::Column { width, j, s, table } => Number(key::column(
            count(width)?,
            count(j)?,
            s,
            table,
        )?),
        Case::Unknown => return None,
    })
}

// round(a/q), of an a of at most 2^62 in size
#[tactic(auto, using(crate::specs::Guard::at_most))]
fn rounded(q: Modulus, a: i64) -> Option<i64> {
    if !is_up_to(4611686018427387904, a) {
        return None;
    }
    Some(round_quotient(a, q))
}

// Reads and answers the cases.
fn run<R: Read, W: Write>(
    input: &mut Input<'_, R>,
    output: &mut Output<W>,
    first: &mut [i64; FIRST],
    second: &mut [i64; SECOND],
    made: &mut [i64; MADE],
) {
    for _ in 0..MOST {
        let Some(case) = case::read(input, first, second) else {
            return;
        };
        print::line(output, answer_to(case, made));
    }
}

fn main(rt: HostRuntime) {
    let mut block = [0u8; 4096];
    let mut input = Input::new(rt.stdin(), &mut block);
    let mut output = Output::new(rt.stdout());
    let mut first = [0i64; FIRST];
    let mut second = [0i64; SECOND];
    let mut made = [0i64; MADE];
    run(&mut input, &mut output, &mut first, &mut second, &mut made);
    output.flush();
}
