// Whole numbers from a reader, in decimal, with white space between them. The input passes through
// a block and is never held whole, so it may be of any length.
ghost use Rattle.std.specs.Prelude.{◌≤◌, ◌<◌, ◌≡◌, List, ℕ, [], neg_ℤ, pos, length, drop, slice_get, slice_range, IfOk, IfSome};
ghost use Rattle.stream.specs.Bounds.{CountIn};
ghost use Rattle.stream.specs.Sizes.{more as Sizes·more};
ghost use Rattle.stream.specs.White.{is_white as White·is_white, WhiteNext};

use crate::BLOCK;
use std::io::{Read, Result};
use std::marker::Model;

// The most bytes of white space that are passed over before a number. A number has fewer digits
// than this. A proved loop has to end, and nothing says that the input does.
const MOST: usize = 65536;

// A size that another digit may follow: ten times this, and nine, is just above the largest size
// of an i64, and still a u64.
const ROOM: u64 = 922337203685477580;

// What numbers are read from. A function over any of it is spared the lifetime of a block that is lent.
pub trait Numbers {
    // What is left of the block that was read last.
    ghost left: { Self → List ℕ };

    // The next number: after it white space is next, or nothing is left.
    fn next(&mut self) -> Option<i64>
        ensures { IfSome result (λ _. WhiteNext (left self.new)) };
}

// A reader, the block that was read last, and what is left of it: its bytes from `at` up to, not
// including, `end`. A contract sees these bytes. The block is lent, so that each program says how
// much it takes at once of an input that others may share.
#[derive(Drop)]
pub struct Input<'a, R> {
    reader: R,
    block: &'a mut [u8],
    at: usize,
    end: usize,
}

impl<'a, R> Model for Input<'a, R> {
    ghost Value = { List ℕ };

    ghost view = { λ i. slice_range i.block.now i.at i.end };

    ghost invariant = { λ i. (i.at ≤ i.end) × ((i.end ≤ length i.block.now) × (length i.block.now ≤ 65536)) };
}

impl<'a, R: Read> Numbers for Input<'a, R> {
    ghost left = { λ i. i };

    fn next(&mut self) -> Option<i64> {
        self.number()
    }
}

impl<'a, R: Read> Input<'a, R> {
    // Nothing is left of a block that was never read: the first call of `number` reads it. Of a block of more
    // than BLOCK bytes the first BLOCK are used, so that, whatever is lent, no more are ever left.
    pub fn new(reader: R, block: &'a mut [u8]) -> Input<'a, R>
        ensures { result ≡ [] }
    {
        let most = block.len().min(BLOCK);
        Input {
            reader,
            block: &mut block[..most],
            at: 0,
            end: 0,
        }
    }

    // The next number: an optional `-` and decimal digits, before white space or the end of the input.
    // None at the end of the input, at a read that fails, at a token that is no such number or is
    // outside i64, and where too many bytes of white space or digits come (MOST). Reading has then
    // stopped, perhaps within a token, and a caller is to stop there too.
    pub fn number(&mut self) -> Option<i64>
        ensures { IfSome result (λ _. WhiteNext self.new) }
    {
        if self.skip()? == b'-' {
            self.take();
            return negative(self.digits()?);
        }
        positive(self.digits()?)
    }

    // A count, and then that many numbers, which are put at the front of `out`: how many. None where
    // the count is negative or above out's length, or where a number is missing or bad; the front
    // of `out` may then be changed.
    pub fn list(&mut self, out: &mut [i64]) -> Option<usize>
        ensures count_in { IfSome result (λ n. CountIn n out.new) }
        ensures out_len_unchanged { length out.new ≡ length out.old }
        ensures white_next { IfSome result (λ _. WhiteNext self.new) }
    {
        let n = usize::try_from(self.number()?).ok()?;
        for x in out.get_mut(..n)? {
            *x = self.number()?;
        }
        Some(n)
    }

    // The next byte, which stays to be taken; None at the end of the input. Where nothing is left of
    // the block it is read anew, from its start.
    fn peek(&mut self) -> Result<Option<u8>>
        ensures { IfOk result (λ b. b ≡ slice_get self.new 0) }
    {
        if self.at == self.end {
            let block = &mut *self.block;
            self.end = self.reader.read(block)?;
            self.at = 0;
        }
        Ok(self.first())
    }

    // The first byte of what is left of the block, where there is one.
    fn first(&self) -> Option<u8>
        ensures { result ≡ slice_get self.now 0 }
    {
        let block = &*self.block;
        block[self.at..self.end].first().copied()
    }

    // Takes the next byte.
    fn take(&mut self)
        requires { 0 < length self.old }
        ensures { self.new ≡ drop 1 self.old }
    {
        self.at += 1;
    }

    // Passes over white space, of which at most MOST bytes are taken, and tells the byte after it,
    // which stays to be taken. None where the input has ended or a read failed.
    fn skip(&mut self) -> Option<u8>
        ensures { IfSome result (λ b. slice_get self.new 0 ≡ Some b) }
    {
        for _ in 0..MOST {
            let b = self.peek().ok()??;
            if !is_white(b) {
                return Some(b);
            }
            self.take();
        }
        self.peek().ok()?
    }

    // Takes digits up to white space or the end of the input, and gives their value: None where
    // there are none or too many, and at any other byte. A read that fails among digits is not
    // taken for the end of the input: the digits may go on.
    fn digits(&mut self) -> Option<u64>
        ensures { IfSome result (λ _. WhiteNext self.new) }
    {
        let mut size = None;
        for _ in 0..MOST {
            let Some(b) = self.peek().ok()? else {
                return size;
            };
            if is_white(b) {
                return size;
            }
            if !b.is_ascii_digit() {
                return None;
            }
            size = Some(more(size.unwrap_or(0), b - b'0')?);
            self.take();
        }
        None
    }
}

// A size with one more digit after it, where it has room for one: a number that is too large is
// refused at the digit that makes it so, and nothing more is read.
#[tactic(auto, unfolding(crate::specs::Sizes::more))]
fn more(size: u64, digit: u8) -> Option<u64>
    ensures { result ≡ Sizes·more size digit }
{
    if size > ROOM {
        return None;
    }
    Some(size * 10 + u64::from(digit))
}

// The number that digits without a sign stand for.
fn positive(size: u64) -> Option<i64>
    ensures { IfSome result (λ x. x ≡ pos size) }
{
    i64::try_from(size).ok()
}

// The number that digits after a `-` stand for.
fn negative(size: u64) -> Option<i64>
    ensures { IfSome result (λ x. x ≡ neg_ℤ (pos size)) }
{
    0i64.checked_sub_unsigned(size)
}

// Space, tab, line feed, carriage return.
#[tactic(auto, unfolding(crate::specs::White::is_white))]
fn is_white(b: u8) -> bool
    ensures { result ≡ White·is_white b }
{
    matches!(b, b' ' | b'\t' | b'\n' | b'\r')
}
