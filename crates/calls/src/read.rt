// Reading a call: its numbers, with the count of each list before its entries, are put one after the other into a store that the caller
// lends. A call that is not whole, a number outside its width, a list that is too long and a call that the store cannot hold are not
// read.
ghost use Rattle.std.specs.Prelude.{◌≡◌, ◌≤◌, length, IfSome};
ghost use Rattle.stream.specs.Bounds.{CountIn};

use crate::kind::Kind;
use stream::Numbers;

// The most entries of a key and of a list of n, n² and n³ entries. They serve up to n = 64, and a
// little more, so that a wrong length can be tried.
pub const SHORT: usize = 128;

pub const MIDDLE: usize = 4160;

pub const LONG: usize = 262400;

// The most entries of a list for gates or wires, of which a circuit has at most 4,096 and 5,120.
pub const WIRES: usize = 5200;

// Three numbers for each of as many gates.
const GATES: usize = 3 * WIRES;

// The most bytes of a circuit file or of its bounds, which have at most 20,503 and 20,480, and of a
// text, which has at most 79,803.
pub const FILE: usize = 20600;

pub const TEXT: usize = 81000;

// The most numbers of a call: call 13 has the most, two lists of LONG among them.
pub const STORE: usize = 550000;

// The widths of numbers: bytes, 32 bits from 0 up, 32 bits signed, and all that a number of a call can have.
#[derive(Clone, Copy)]
enum Width {
    Byte,
    Word,
    Narrow,
    Whole,
}

// What a call has at a place: n, q, L, E and F, a number, or the count of a list and then its entries, at most so many.
#[derive(Clone, Copy)]
enum Part {
    Params,
    Number(Width),
    List(Width, usize),
}

const WORD: Part = Part::Number(Width::Word);

const NUMBER: Part = Part::Number(Width::Whole);

const KEY: Part = Part::List(Width::Narrow, SHORT);

// A list of n, n² or n³ numbers.
const N1: Part = Part::List(Width::Whole, SHORT);

const N2: Part = Part::List(Width::Whole, MIDDLE);

const N3: Part = Part::List(Width::Whole, LONG);

// A list with a number for each gate or wire, and one with three for each gate.
const WORDS: Part = Part::List(Width::Word, WIRES);

const RECORDS: Part = Part::List(Width::Word, GATES);

// The bytes of a file or of its bounds, and of a text.
const BYTES: Part = Part::List(Width::Byte, FILE);

const LETTERS: Part = Part::List(Width::Byte, TEXT);

// What a call has after its number.
fn parts(kind: Kind) -> &'static [Part] {
    match kind {
        Kind::Make => &[Part::Params],
        Kind::Sheet => &[WORD],
        Kind::CheckKey => &[Part::Params, KEY],
        Kind::MakeSwitchingKey => &[Part::Params, KEY, N3, N2, N3],
        Kind::CheckBenchKey | Kind::MakeBenchKey => &[KEY, N1, N1],
        Kind::Encrypt => &[Part::Params, KEY, WORD, N1, NUMBER, N1],
        Kind::Decrypt => &[Part::Params, KEY, N1],
        Kind::Xor => &[Part::Params, N1, WORD, N1, WORD, N1],
        Kind::Not => &[Part::Params, N1, WORD, N1],
        Kind::And => &[Part::Params, N1, WORD, N1, WORD, N3, N2, N1],
        Kind::Plan => &[Part::Params, WORD, WORDS, WORDS, WORDS, WORDS],
        Kind::Evaluate => &[Part::Params, WORD, WORDS, WORDS, WORDS, N3, WORDS, N3, N2],
        Kind::CheckFile => &[BYTES],
        Kind::PlanFile => &[BYTES, BYTES],
        Kind::PrintFile => &[BYTES, LETTERS],
        Kind::PlanGates => &[Part::Params, WORD, RECORDS, WORDS],
        Kind::EvaluateGates => &[Part::Params, WORD, RECORDS, N3, WORDS, N3, N2],
    }
}

impl Width {
    // Whether a number has this width.
    fn holds(self, x: i64) -> bool {
        match self {
            Width::Byte => u8::try_from(x).is_ok(),
            Width::Word => u32::try_from(x).is_ok(),
            Width::Narrow => i32::try_from(x).is_ok(),
            Width::Whole => true,
        }
    }
}

// Where a call is read from, and the store that it is put into, which has so many numbers of it. Each method says that it keeps the store
// itself, of which two values speak, before and after, so that no ghost field can. The store is lent, for nothing here allocates.
#[derive(Drop)]
struct Reader<'a, N> {
    input: &'a mut N,
    store: &'a mut [i64],
    len: usize,
    ghost within: { len ≤ length store.now },
}

impl<N: Numbers> Reader<'_, N> {
    // The next number, which must have this width.
    fn number(&mut self, width: Width) -> Option<i64>
        ensures { self.new.store.ghost_name ≡ self.old.store.ghost_name }
    {
        let x = self.input.next()?;
        if self.len == self.store.len() || !width.holds(x) {
            return None;
        }
        self.store[self.len] = x;
        self.len += 1;
        Some(x)
    }

    // So many numbers of a width.
    fn numbers(&mut self, count: usize, width: Width) -> Option<()>
        ensures { self.new.store.ghost_name ≡ self.old.store.ghost_name }
    {
        for _ in 0..count {
            self.number(width)?;
        }
        Some(())
    }

    // What a call has at a place.
    fn part(&mut self, part: Part) -> Option<()>
        ensures { self.new.store.ghost_name ≡ self.old.store.ghost_name }
    {
        match part {
            Part::Params => self.numbers(5, Width::Word),
            Part::Number(width) => self.numbers(1, width),
            Part::List(width, most) => {
                let count = usize::try_from(self.number(Width::Word)?).ok()?;
                if count > most {
                    return None;
                }
                self.numbers(count, width)
            }
        }
    }

    // A call: which one it is. Its number is not put into the store.
    fn read(&mut self) -> Option<Kind>
        ensures { self.new.store.ghost_name ≡ self.old.store.ghost_name }
    {
        let kind = Kind::try_from(self.input.next()?).ok()?;
        for part in parts(kind) {
            self.part(*part)?;
        }
        Some(kind)
    }
}

// The next call, with what it lends at the front of the store: how many numbers that is.
pub fn call<N: Numbers>(input: &mut N, store: &mut [i64]) -> Option<(Kind, usize)>
    ensures count_in { IfSome result (λ c. CountIn c.1 store.new) }
    ensures store_len_unchanged { length store.new ≡ length store.old }
{
    let mut reader = Reader {
        input,
        store,
        len: 0,
    };
    let kind = reader.read()?;
    Some((kind, reader.len))
}
