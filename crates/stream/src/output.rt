// Whole numbers and words to a writer, gathered in a block: `flush` at the end writes what is left.
// Bytes whose write fails are dropped.
ghost use Rattle.std.specs.Prelude.{◌+◌, ◌≤◌, ◌≡◌, List, ℕ, [], ◌∷◌, ◌++◌, decimal, length, take, drop};
ghost use Rattle.stream.specs.Bounds.{CountIn};
ghost use Rattle.stream.specs.Held.{room_for, put, put_number, put_numbers, spaced};

use crate::BLOCK;
use itoa::Buffer;
use std::io::Write;
use std::marker::Model;

// The most bytes that a number takes, with its sign and the space after it, and a few more.
const WIDEST: usize = 24;

// A writer, and a block whose first `at` bytes are still to be written to it. A contract sees these
// bytes.
#[derive(Drop)]
pub struct Output<W> {
    writer: W,
    block: [u8; BLOCK],
    at: usize,
}

impl<W> Model for Output<W> {
    ghost Value = { List ℕ };

    ghost view = { λ o. take o.at o.block };

    ghost invariant = { λ o. o.at ≤ 65536 };
}

impl<W: Write> Output<W> {
    pub fn new(writer: W) -> Output<W>
        ensures { result ≡ [] }
    {
        Output {
            writer,
            block: [0; BLOCK],
            at: 0,
        }
    }

    // Puts the decimal digits of `x`, after a `-` if it is negative, and a space. Where fewer than
    // WIDEST bytes are free the block is written first.
    pub fn number(&mut self, x: i64)
        ensures { self.new ≡ put_number x self.old }
    {
        self.room(WIDEST);
        if x < 0 {
            self.append(b"-");
        }
        self.unsigned(x.unsigned_abs());
    }

    // Puts the decimal digits of `n` and a space.
    pub fn unsigned(&mut self, n: u64)
        ensures { self.new ≡ put (spaced (decimal n)) self.old }
    {
        let mut digits = [0u8; 20];
        let k = decimal(n, &mut digits);
        self.word(&digits[..k]);
    }

    // Puts numbers one after the other.
    pub fn numbers(&mut self, xs: &[i64])
        ensures { self.new ≡ put_numbers xs.now self.old }
    {
        for x in xs {
            self.number(*x);
        }
    }

    // Puts a line feed.
    pub fn end_line(&mut self)
        ensures { self.new ≡ put (10 ∷ []) self.old }
    {
        self.room(1);
        self.append(b"\n");
    }

    // Puts a word and a space. Where they do not fit after `at` the block is written first; a word
    // that the block cannot hold is left out.
    pub fn word(&mut self, word: &[u8])
        ensures { self.new ≡ put (spaced word.now) self.old }
    {
        let n = word.len();
        self.room(n + 1);
        if n < BLOCK - self.at {
            self.append(word);
            self.append(b" ");
        }
    }

    // Writes what the block holds.
    pub fn flush(&mut self)
        ensures { self.new ≡ [] }
    {
        let _ = self.writer.write_all(&self.block[..self.at]);
        self.at = 0;
    }

    // Has `n` bytes of the block free, if it is as long as that: where fewer are, it is written first.
    fn room(&mut self, n: usize)
        ensures { self.new ≡ room_for n self.old }
    {
        if n > BLOCK - self.at {
            self.flush();
        }
    }

    // Puts bytes for which there is room.
    fn append(&mut self, bytes: &[u8])
        requires { length self.old + length bytes.now ≤ 65536 }
        ensures { self.new ≡ self.old ++ bytes.now }
    {
        let end = self.at + bytes.len();
        self.block[self.at..end].copy_from_slice(bytes);
        self.at = end;
    }
}

// Puts n's decimal digits at the start of `out`, and answers how many there are. The bytes after them
// stay.
pub fn decimal(n: u64, out: &mut [u8; 20]) -> usize
    ensures count_in { CountIn result out.new }
    ensures digits { take result out.new ≡ decimal n }
    ensures rest { drop result out.new ≡ drop result out.old }
{
    let mut buffer = Buffer::new();
    let digits = buffer.format(n).as_bytes();
    out[..digits.len()].copy_from_slice(digits);
    digits.len()
}
