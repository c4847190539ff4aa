// The lines of the output.
ghost use Rattle.std.specs.Prelude.{◌≡◌};
ghost use Rattle.edges.specs.Line.{line};

use crate::Answer;
use std::io::Write;
use stream::Output;

// The line of an answer, and that of a case whose operands the function does not take.
pub fn line<W: Write>(output: &mut Output<W>, answer: Option<Answer>)
    ensures { output.new ≡ line answer.entry output.old }
{
    match answer {
        Some(Answer::Number(x)) => output.number(x),
        Some(Answer::Numbers(xs)) => output.numbers(xs),
        None => output.word(b"refused"),
    }
    output.end_line();
}
