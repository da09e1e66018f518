// The verdict of a line by the smallest number of its faults [S Numbers the host sees].
ghost use Rattle.asm_answers.specs.Verdicts.{VerdictOf};

// A line's fault: its number, 1 to 7, and the line, the first being 1.
#[derive(Clone, Copy)]
pub struct Fault {
    pub number: u32,
    pub line: u32,
}

// The verdict of a line whose smallest number is `number`, 0 where it has no fault.
pub fn verdict_of(number: u32, line: u32) -> Result<(), Fault>
    ensures { VerdictOf number line result }
{
    if number != 0 {
        return Err(Fault { number, line });
    }
    Ok(())
}
