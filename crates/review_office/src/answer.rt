//! Answers, by what was done.

ghost use Rattle.std.specs.Prelude.{◌≡◌};
ghost use Rattle.review_office.specs.Told.{answer_to, judgement_of};

use office_judging::Refusal;
use office_policy::Judgement;
use review_policy::Answer;

// The answer to a request that was refused so.
fn answer_to(refusal: Refusal) -> Answer
    ensures { result ≡ answer_to refusal }
{
    match refusal {
        Refusal::Denied { denial, fault } => Answer::Denied { denial, fault },
        Refusal::Fault(fault) => Answer::Fault(fault),
    }
}

// What a request comes to: a refusal is its answer.
pub(crate) fn judgement(judged: Result<Judgement, Refusal>) -> Judgement
    ensures { result ≡ judgement_of judged }
{
    match judged {
        Ok(judgement) => judgement,
        Err(refusal) => Judgement::Answered(answer_to(refusal)),
    }
}
