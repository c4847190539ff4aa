ghost use Rattle.std.specs.Prelude.{◌≡◌};
ghost use Rattle.circuit.specs.Kind.{kind_of};

// What a gate makes of its operands.
#[derive(Clone, Copy, Debug, PartialEq, Eq)]
pub enum Kind {
    Xor,
    And,
    Not,
}

impl Kind {
    // The kind of a gate record that is not wrong: 0 XOR, 1 AND, 2 NOT.
    pub fn of(code: u32) -> Kind
        ensures { result ≡ kind_of code }
    {
        match code {
            0 => Kind::Xor,
            1 => Kind::And,
            _ => Kind::Not,
        }
    }
}
