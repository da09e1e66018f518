// The answers of a run and of a resume, each with its number [S Numbers the host sees].
ghost use Rattle.std.specs.Prelude.{◌≡◌};
ghost use Rattle.resuming.specs.Answers.{report_number, outcome_by, refusing, report_of};
ghost use Rattle.resuming.specs.Answers as Report;

use exec_core::Answer as Code;
use states::State;

// How a run or a resume ends: a resume that goes on, waiting at the JSR of an EXP, budget used, or stopped by 22 to 29; or why it is
// refused, by 30 to 33. It is no Result: each answer stands beside steps and a state, a refusal's too, and one table numbers them all.
#[derive(Clone, Copy)]
pub enum Answer {
    Resumed,
    Waits,
    Used,
    BadAddress,
    ConstantWrite,
    NoEntry,
    NoCase,
    ImpossibleExit,
    LinksFull,
    AboveCount,
    BadDigit,
    BadTable,
    BadState,
    OverBudget,
    NotResumable,
}

// The answer of a used budget, beside those of exec_core.
pub const USED: usize = 21;

// The number of an answer.
pub fn number(answer: Answer) -> u32
    ensures { result ≡ report_number (report_of answer) }
{
    match answer {
        Answer::Resumed => 0,
        Answer::Waits => 20,
        Answer::Used => 21,
        Answer::BadAddress => 22,
        Answer::ConstantWrite => 23,
        Answer::NoEntry => 24,
        Answer::NoCase => 25,
        Answer::ImpossibleExit => 26,
        Answer::LinksFull => 27,
        Answer::AboveCount => 28,
        Answer::BadDigit => 29,
        Answer::BadTable => 30,
        Answer::BadState => 31,
        Answer::OverBudget => 32,
        Answer::NotResumable => 33,
    }
}

// The answer of a number below 30.
pub fn ending(how: usize) -> Answer
    ensures { report_of result ≡ Report.ends (outcome_by how) }
{
    match how {
        Code::WAITS => Answer::Waits,
        USED => Answer::Used,
        Code::BAD_ADDRESS => Answer::BadAddress,
        Code::CONSTANT_WRITE => Answer::ConstantWrite,
        Code::NO_ENTRY => Answer::NoEntry,
        Code::NO_CASE => Answer::NoCase,
        Code::IMPOSSIBLE_EXIT => Answer::ImpossibleExit,
        Code::LINKS_FULL => Answer::LinksFull,
        Code::ABOVE_COUNT => Answer::AboveCount,
        Code::BAD_DIGIT => Answer::BadDigit,
        _ => Answer::Resumed,
    }
}

// The answer of a run, the steps that it took, and the state that it leaves beside its memory; a refusal's state is the one that was lent.
#[derive(Clone, Copy)]
pub struct Ran {
    pub answer: Answer,
    pub steps: u32,
    pub state: State,
}

// A refusal.
pub fn refused(answer: Answer, state: State) -> Ran
    ensures { result ≡ refusing answer state }
{
    Ran {
        answer,
        steps: 0,
        state,
    }
}
