// The page that a text is written on. A contract sees the bytes written so far. The bytes are a lent array with a length beside it, since nothing here
// allocates; it is lent since a page that holds it is copied where it is made.
ghost use Rattle.std.specs.Prelude.{◌≡◌, ◌≤◌, ◌+◌, List, ℕ, [], ◌∷◌, ◌++◌, length, take};
ghost use Rattle.circuitfile.specs.Text.{decimal};

use std::marker::Model;

// Room for any text: 20 bytes for each of 5,120 wires, and 32 for the last line.
pub const ROOM: usize = 102432;

#[derive(Drop)]
pub struct Page<'a> {
    bytes: &'a mut [u8; ROOM],
    len: usize,
}

impl<'a> Model for Page<'a> {
    ghost Value = { List ℕ };

    ghost view = { λ p. take p.len p.bytes.now };

    ghost invariant = { λ p. p.len ≤ 102432 };
}

impl<'a> Page<'a> {
    // An empty page.
    pub fn new(bytes: &'a mut [u8; ROOM]) -> Page<'a>
        ensures { result ≡ [] }
    {
        Page { bytes, len: 0 }
    }

    // What is written.
    pub fn text(&self) -> &[u8]
        ensures text { result.now ≡ self.now }
        ensures text_length { length result.now ≤ 102432 }
    {
        &self.bytes[..self.len]
    }

    // Writes bytes. The block of `stream` takes them alike: one type for both is no plainer, since a block is written out when it is full and a page
    // never is, and text would lean on `stream`, of the programs, for these three lines.
    pub fn put(&mut self, bytes: &[u8])
        requires { length self.old + length bytes.now ≤ 102432 }
        ensures written { self.new ≡ self.old ++ bytes.now }
        ensures length { length self.new ≡ length self.old + length bytes.now }
    {
        let to = self.len + bytes.len();
        // by a name of its own: a part of what lies behind a field's reference has no proof yet
        let room = &mut *self.bytes;
        room[self.len..to].copy_from_slice(bytes);
        self.len = to;
    }

    // Writes the decimal digits of a number: the last behind those of the others, as the definition has it. By hand, since text leans on no
    // program's crate, as that of `stream::decimal` is, and `decimal` of circuitfile is a definition of its own.
    #[tactic(auto, using(circuitfile::specs::Digits::decimal_short, circuitfile::specs::Digits::decimal_long, circuitfile::specs::Digits::length_short, circuitfile::specs::Digits::length_long))]
    pub fn put_number(&mut self, x: u64)
        requires { length self.old + length (decimal x) ≤ 102432 }
        ensures written { self.new ≡ self.old ++ decimal x }
        ensures length { length self.new ≡ length self.old + length (decimal x) }
    {
        if 9 < x {
            self.put_number(x / 10);
        }
        self.put(&[b'0' + (x % 10) as u8]);
    }

    // Writes the digits of a number, and the byte that ends them.
    pub fn put_field(&mut self, x: u64, end: u8)
        requires { length self.old + length (decimal x) + 1 ≤ 102432 }
        ensures written { self.new ≡ self.old ++ (decimal x ++ (end ∷ [])) }
        ensures length { length self.new ≡ length self.old + length (decimal x) + 1 }
    {
        self.put_number(x);
        self.put(&[end]);
    }
}
