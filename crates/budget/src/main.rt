// The budget printer: reads a circuit file on standard input and prints its text. Nothing here allocates: the file and the text lie in arrays of the largest size.
#![tactic(auto)]

ghost use Rattle.std.specs.Prelude.{◌≡◌, ◌≤◌, IfOk, length, take};
ghost use Rattle.std.specs.Counts.{IsPrefixLen};
ghost use Rattle.circuitfile.specs.Text.{text};

use std::io;
use std::io::{Read, Write};
use text::ROOM;

// One byte more than the longest valid file has. A longer file has the text of its first so many bytes: `long_text` of circuitfile's specs/Long.
const MOST: usize = 20504;

// Reads until the buffer is full or the input ends, and answers how many bytes were read. A read gives as many bytes as it likes, so none is counted in advance.
fn read_input<R: Read>(input: &mut R, file: &mut [u8]) -> io::Result<usize>
    ensures { IfOk result (λ len. IsPrefixLen len file.new) }
{
    let mut len = 0;
    while len < file.len() {
        let more = input.read(&mut file[len..])?;
        if more == 0 {
            break;
        }
        len += more;
    }
    Ok(len)
}

// The text of the file at the front of `out`: what is printed.
fn render(file: &[u8], out: &mut [u8]) -> usize
    requires { 102432 ≤ length out.old }
    ensures out_after { take result out.new ≡ text file.now }
    ensures prefix_len { IsPrefixLen result out.new }
{
    text::text(file, out).unwrap_or(0)
}

fn main(rt: HostRuntime) {
    let mut input = rt.stdin();
    let mut output = rt.stdout();
    let mut errors = rt.stderr();
    let mut file = [0u8; MOST];
    let mut out = [0u8; ROOM];
    let Ok(len) = read_input(&mut input, &mut file) else {
        let _ = errors.write_all(b"budget: standard input cannot be read\n");
        return;
    };
    let long = render(&file[..len], &mut out);
    if output.write_all(&out[..long]).is_err() {
        let _ = errors.write_all(b"budget: standard output cannot be written\n");
    }
}
