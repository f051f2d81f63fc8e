// Answers, orders and checks as document 01's numbers. Of a `Result` these are functions and no `From`, for neither type is
// this crate's; `check_number` is promised beside `From<Check>`.
ghost use Rattle.std.specs.Prelude.{◌≡◌};
ghost use Rattle.sysex.specs.Numbers.{answer_number, answer_length, check_number, order_number};

use crate::{Answer, Answered, Check, Order};
use ground::Refusal;

pub fn answer_number(answer: Answered) -> u8
    ensures { result ≡ answer_number answer }
{
    match answer {
        Ok(Answer::Taken) => 0,
        Ok(Answer::Stored) => 1,
        Ok(Answer::Sent(_)) => 2,
        Ok(Answer::Applied) => 3,
        Ok(Answer::Cut) => 4,
        Err(refusal) => u8::from(refusal),
    }
}

// The reply's length.
pub fn answer_length(answer: Answered) -> u16
    ensures { result ≡ answer_length answer }
{
    match answer {
        Ok(Answer::Sent(length)) => length,
        _ => 0,
    }
}

impl From<Check> for Refusal {
    ghost use Rattle.std.specs.Prelude.{◌≡◌};
    ghost use Rattle.sysex.specs.Numbers.{refusal_for};

    ghost from_gives = { λ check refusal. refusal ≡ refusal_for check };

    // Why a message that fails a check is refused.
    fn from(check: Check) -> Refusal {
        match check {
            Check::TooLong(_) => Refusal::TooLong,
            Check::Ours(_) => Refusal::NotOurs,
            Check::OpcodeAndType => Refusal::OpcodeOrType,
            Check::Length(_, _) => Refusal::WrongLength,
            Check::Program(_) => Refusal::NoProgram,
            Check::Version(_) => Refusal::WrongVersion,
            Check::HalfBytes(_) => Refusal::NoHalfByte,
            Check::Channel(_) => Refusal::OtherIdentity,
        }
    }
}

// The number of a check that fails.
pub fn check_number(check: Check) -> u8
    ensures { result ≡ check_number check }
{
    u8::from(Refusal::from(check))
}

// The number of a message with this order, or that fails a check.
pub fn order_number(judged: Result<Order, Check>) -> u8
    ensures { result ≡ order_number judged }
{
    match judged {
        Ok(Order::Identify(_)) => 2,
        Ok(Order::Send(_)) => 2,
        Ok(Order::Store(_)) => 1,
        Err(check) => check_number(check),
    }
}
