// The file's fields, big-endian. Past the end of the file every byte is 0.
ghost use Rattle.std.specs.Prelude.{◌≡◌, ◌+◌, ◌<◌, slice_index};
ghost use Rattle.whole.specs.Lists.{tabulate};
ghost use Rattle.circuitfile.specs.File.{field};

// The byte at `at`.
fn byte(file: &[u8], at: usize) -> u8
    ensures { result ≡ slice_index file.now at }
{
    file.get(at).copied().unwrap_or(0)
}

// The bytes from `at` on, as many as the field is wide.
// By a loop: std's from_fn of arrays was tried, and that its items are those of the list in the promise was left open.
fn bytes<const WIDTH: usize>(file: &[u8], at: usize) -> [u8; WIDTH]
    ensures { result ≡ tabulate WIDTH (λ i. slice_index file.now (at + i)) }
{
    let mut bytes = [0; WIDTH];
    for (i, read) in bytes.iter_mut().enumerate() {
        *read = byte(file, at.saturating_add(i));
    }
    bytes
}

// The field of one byte at `at`.
#[tactic(auto, using(circuitfile::specs::Fields::field_one))]
pub fn one(file: &[u8], at: usize) -> u32
    ensures { (result ≡ field file.now at 1) × (result < 256) }
{
    u32::from(byte(file, at))
}

// The field of two bytes at `at`.
#[tactic(auto, unfolding(circuitfile::specs::File::field, circuitfile::specs::File::big_endian, whole::specs::Lists::tabulate))]
pub fn two(file: &[u8], at: usize) -> u32
    ensures { (result ≡ field file.now at 2) × (result < 65536) }
{
    u32::from(u16::from_be_bytes(bytes(file, at)))
}

// The field of four bytes at `at`.
#[tactic(auto, unfolding(circuitfile::specs::File::field, circuitfile::specs::File::big_endian, whole::specs::Lists::tabulate))]
pub fn four(file: &[u8], at: usize) -> u32
    ensures { result ≡ field file.now at 4 }
{
    u32::from_be_bytes(bytes(file, at))
}
