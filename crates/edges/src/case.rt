// A case: its number, its numbers and its lists.
ghost use Rattle.std.specs.Prelude.{IfSome};
ghost use Rattle.stream.specs.White.{WhiteNext};

use std::io::Read;
use stream::Input;

// A case by its number, with its operands.
#[derive(Clone, Copy)]
pub enum Case<'a> {
    Residue {
        q: i64,
        x: i64,
    },
    BigResidue {
        q: i64,
        x: i64,
    },
    Rounded {
        q: i64,
        a: i64,
    },
    TensorEntry {
        q: i64,
        x: i64,
        y: i64,
    },
    Tensor {
        q: i64,
        c: &'a [i64],
        d: &'a [i64],
    },
    Switched {
        q: i64,
        t: &'a [i64],
        row: &'a [i64],
    },
    Switch {
        q: i64,
        n: i64,
        t: &'a [i64],
        key: &'a [i64],
    },
    Residues {
        q: i64,
        xs: &'a [i64],
    },
    BigResidues {
        q: i64,
        xs: &'a [i64],
    },
    Within {
        limit: i64,
        xs: &'a [i64],
    },
    Sum {
        s: &'a [i64],
    },
    Product {
        s: &'a [i64],
        c: &'a [i64],
    },
    Column {
        width: i64,
        j: i64,
        s: &'a [i64],
        table: &'a [i64],
    },
    // a number that is none of ours has no operands
    Unknown,
}

// The next case, with its lists at the front of `left` and `right`. Nothing more is read once an operand is missing.
pub fn read<'a, R: Read>(
    input: &mut Input<'_, R>,
    left: &'a mut [i64],
    right: &'a mut [i64],
) -> Option<Case<'a>>
    ensures { IfSome result (λ _. WhiteNext input.new) }
{
    Some(match input.number()? {
        1 => Case::Residue {
            q: input.number()?,
            x: input.number()?,
        },
        2 => Case::BigResidue {
            q: input.number()?,
            x: input.number()?,
        },
        3 => Case::Rounded {
            q: input.number()?,
            a: input.number()?,
        },
        4 => Case::TensorEntry {
            q: input.number()?,
            x: input.number()?,
            y: input.number()?,
        },
        5 => Case::Tensor {
            q: input.number()?,
            c: list(input, left)?,
            d: list(input, right)?,
        },
        6 => Case::Switched {
            q: input.number()?,
            t: list(input, left)?,
            row: list(input, right)?,
        },
        7 => Case::Switch {
            q: input.number()?,
            n: input.number()?,
            t: list(input, left)?,
            key: list(input, right)?,
        },
        8 => Case::Residues {
            q: input.number()?,
            xs: list(input, left)?,
        },
        9 => Case::BigResidues {
            q: input.number()?,
            xs: list(input, left)?,
        },
        10 => Case::Within {
            limit: input.number()?,
            xs: list(input, left)?,
        },
        11 => Case::Sum {
            s: list(input, left)?,
        },
        12 => Case::Product {
            s: list(input, left)?,
            c: list(input, right)?,
        },
        13 => Case::Column {
            width: input.number()?,
            j: input.number()?,
            s: list(input, left)?,
            table: list(input, right)?,
        },
        _ => Case::Unknown,
    })
}

// The next list, at the front of `out`.
fn list<'a, R: Read>(input: &mut Input<'_, R>, out: &'a mut [i64]) -> Option<&'a [i64]>
    ensures { IfSome result (λ _. WhiteNext input.new) }
{
    let n = input.list(out)?;
    Some(&out[..n])
}
