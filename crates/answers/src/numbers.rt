// What C is told of a result.
ghost use Rattle.std.specs.Prelude.{◌≡◌};
ghost use Rattle.refusal.specs.Refusal.{of_judgement};
ghost use Rattle.answers.specs.Answers.{answer_number, value_left};

use refusal::Refusal;

// 0, or the refusal's number.
pub fn number_of(judged: Result<(), Refusal>) -> u32
    ensures { result ≡ answer_number (of_judgement judged) }
{
    match judged {
        Ok(()) => 0,
        Err(why) => why.number(),
    }
}

// What a word lent for the least index of a bad shape holds then: 3 gives it, and every other answer leaves the old content.
pub fn least_left(judged: Result<(), Refusal>, old: u32) -> u32
    ensures { result ≡ value_left (of_judgement judged) 2 old }
{
    match judged {
        Err(Refusal::NotNet { m: _, a: _, j }) => j,
        _ => old,
    }
}
