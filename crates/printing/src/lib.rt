// Puts the lines that `play` prints into memory, part by part (01, 'Match file', `play`). The memory is lent and a length given back, since there is no heap.
#![tactic(auto)]

ghost use Rattle.answer.specs.Numbers.{told};
ghost use Rattle.printing.specs.Text as spec;
ghost use Rattle.printing.specs.Text.{Puts};

use answer::{Answer, Error, number};
use machine::Outcome;
use machine::limits::MOST_NAMES;
use text::Text;

mod text;

// The bytes of the memory that is lent for the lines.
pub const TEXT_SIZE: usize = 16384;

// Puts the line of a refusal: the number, and for 13 its position.
pub fn put_refusal(out: &mut [u8; TEXT_SIZE], answer: Answer) -> usize
    ensures { Puts out.old out.new 0 result (spec.refusal_text (told answer)) }
{
    let mut line = Text::new(out);
    line.decimal(number(answer) as u64);
    if let Err(Error::Malformed(position)) = answer {
        line.byte(b' ');
        line.decimal(position as u64);
    }
    line.byte(b'\n');
    line.length
}

// Puts the lines of a run: answer, steps and writes, then the names; none where the header holds more than 16 names.
pub fn put_run(out: &mut [u8; TEXT_SIZE], run: Outcome) -> usize
    ensures { Puts out.old out.new 0 result (spec.run_text_if (told run.answer).number run.steps run.writes run.header) }
{
    if run.header.names.held > MOST_NAMES {
        return 0;
    }
    let mut lines = Text::new(out);
    lines.decimal(number(run.answer) as u64);
    lines.byte(b' ');
    lines.decimal(run.steps);
    lines.byte(b' ');
    lines.decimal(run.writes);
    lines.byte(b'\n');
    lines.names(run.header);
    lines.length
}
