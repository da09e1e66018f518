// The number of each answer of the assembler, in the upper half of a u64, with the length or the line in the lower [S Numbers the host sees].
#![tactic(auto)]

ghost use Rattle.std.specs.Prelude.{◌≡◌, ◌+◌};
ghost use Rattle.assembler.specs.Answers.{answer_view};
ghost use Rattle.asm_numbers.specs.Numbers.{assembled_number};
ghost use Rattle.rules.specs.Number.{upper};

use assembler::Refusal;
use host_numbers::UPPER;

// The answers that name no line.
const INCOMPLETE: u32 = 8;

const OVER_LIMIT: u32 = 9;

const SHORT_TABLE: u32 = 10;

// A number and a value as one answer.
fn both(number: u32, value: u32) -> u64
    ensures { result ≡ upper number + value }
{
    UPPER * number as u64 + value as u64
}

// The number and the length or line of the assembler's answer.
pub fn number_assembled(a: Result<u32, Refusal>) -> u64
    ensures { result ≡ assembled_number (answer_view a) }
{
    match a {
        Ok(n) => both(0, n),
        Err(Refusal::LongText) => both(OVER_LIMIT, 0),
        Err(Refusal::Faulty(f)) => both(f.number, f.line),
        Err(Refusal::Incomplete) => both(INCOMPLETE, 0),
        Err(Refusal::OverLimit) => both(OVER_LIMIT, 0),
        Err(Refusal::ShortRoom) => both(SHORT_TABLE, 0),
    }
}
