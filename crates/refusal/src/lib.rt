// What every public call answers with, and the parameter set that every public call is lent.
#![tactic(auto)]

ghost use Rattle.std.specs.Prelude.{◌≡◌, ◌≤◌, ◌<◌};
ghost use Rattle.refusal.specs.Answer.{refusal_number, refusal_place, RefusesWhen};
ghost use Rattle.refusal.specs.First.{done_or};
ghost use Rattle.refusal.specs.Parameters.{params, no_params, within, in_range, sheet, make_number, sheet_number, made_number, made_place, made_params, made, made_sheet};

// Why a call refuses, one for each refusal number. Of a circuit's gates it says which: the first gate that is wrong, or whose bound does not fit.
#[derive(Clone, Copy, Debug, PartialEq, Eq)]
pub enum Refusal {
    Parameters,
    Counts,
    Length,
    Key,
    Bit,
    Entry,
    Error,
    Bound,
    Gate(u64),
    Budget(u64),
    Mark,
    FileLength,
}

impl Refusal {
    // The refusal number.
    pub fn number(self) -> u32
        ensures { result ≡ refusal_number self }
    {
        match self {
            Refusal::Parameters => 1,
            Refusal::Counts => 2,
            Refusal::Length => 3,
            Refusal::Key => 4,
            Refusal::Bit => 5,
            Refusal::Entry => 6,
            Refusal::Error => 7,
            Refusal::Bound => 8,
            Refusal::Gate(_) => 9,
            Refusal::Budget(_) => 10,
            Refusal::Mark => 11,
            Refusal::FileLength => 12,
        }
    }

    // The place: the gate, and 0 of what is no gate of a circuit.
    pub fn place(self) -> u64
        ensures { result ≡ refusal_place self }
    {
        match self {
            Refusal::Gate(gate) | Refusal::Budget(gate) => gate,
            _ => 0,
        }
    }
}

// A row of a call's refusals: where it applies the call refuses, and otherwise it goes on.
pub fn refuse_if(applies: bool, refusal: Refusal) -> Result<(), Refusal>
    ensures { RefusesWhen applies refusal result }
{
    if applies {
        return Err(refusal);
    }
    Ok(())
}

// A parameter set: the entries n of a ciphertext, the modulus q, and the limits L on the key, E on a fresh error and F on a
// switching error. Anyone can make one out of any numbers, so every call tests it again.
#[derive(Clone, Copy)]
pub struct Params {
    pub n: u32,
    pub q: u32,
    pub l: u32,
    pub e: u32,
    pub f: u32,
}

// The six house sheets: n, q, L, E and F of each.
const SHEETS: [[u32; 5]; 6] = [
    [2, 16, 2, 1, 1],
    [4, 65536, 4, 2, 1],
    [8, 65536, 8, 2, 1],
    [16, 262144, 16, 3, 1],
    [64, 1048576, 64, 4, 2],
    [256, 1048576, 128, 8, 4],
];

// Whether x is low to high.
fn is_within(low: u32, high: u32, x: u32) -> bool
    ensures { result ≡ within low high x }
{
    (low..=high).contains(&x)
}

impl Params {
    pub const N_LOW: u32 = 2;

    pub const N_HIGH: u32 = 1024;

    pub const Q_LOW: u32 = 16;

    pub const Q_HIGH: u32 = 1048576;

    pub const L_LOW: u32 = 1;

    pub const L_HIGH: u32 = 4096;

    pub const F_HIGH: u32 = 65535;

    // Whether every parameter is in its range.
    pub fn in_range(self) -> bool
        ensures { result ≡ in_range self }
    {
        is_within(Params::N_LOW, Params::N_HIGH, self.n)
            & (is_within(Params::Q_LOW, Params::Q_HIGH, self.q) & (self.q % 2 == 0))
            & is_within(Params::L_LOW, Params::L_HIGH, self.l)
            & (4 * (self.e as u64) < (self.q as u64))
            & (self.f <= Params::F_HIGH)
    }

    // The set of these numbers, or refusal 1 where one of them is outside its range.
    pub fn make(n: u32, q: u32, l: u32, e: u32, f: u32) -> Result<Params, Refusal>
        ensures value { result ≡ made (params n q l e f) }
        ensures number { made_number result ≡ make_number (params n q l e f) }
        ensures place { made_place result ≡ 0 }
        ensures params { made_params result ≡ done_or (make_number (params n q l e f)) (params n q l e f) no_params }
    {
        let p = Params { n, q, l, e, f };
        refuse_if(!p.in_range(), Refusal::Parameters)?;
        Ok(p)
    }

    // House sheet k, or refusal 1 where there is none.
    pub fn sheet(k: u32) -> Result<Params, Refusal>
        ensures value { result ≡ made_sheet k }
        ensures number { made_number result ≡ sheet_number k }
        ensures place { made_place result ≡ 0 }
        ensures params { made_params result ≡ done_or (sheet_number k) (sheet k) no_params }
    {
        if 6 <= k {
            return Err(Refusal::Parameters);
        }
        let [n, q, l, e, f] = SHEETS[k as usize];
        Ok(Params { n, q, l, e, f })
    }
}
