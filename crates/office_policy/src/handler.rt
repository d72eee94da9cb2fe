//! Whoever handles requests.

ghost use Rattle.std.specs.Prelude.{◌≡◌, IfOk, OnErr};
ghost use Rattle.office_policy.specs.History.{History};
ghost use Rattle.office_policy.specs.Runs.{history_after_all};
ghost use Rattle.office_policy.specs.Meaning.{Meaning};
ghost use Rattle.office_policy.specs.Handled.{IsHandled, LeavesOnly};
ghost use Rattle.office_policy.specs.Left.{AreLeft};
ghost use Rattle.office_policy.specs.Ran.{HaveRun};

use review_policy::{Answer, Request};
use std::alloc::{AllocError, Global};

/// What handles requests: an office over a store, or what stands for one.
pub trait Handler {
    /// When it is the office of a history, and what a crash may leave of it.
    ghost meaning: { Meaning Self };

    /// Carries a request out where every rule of the policy allows it, and else names the first
    /// rule that refuses it.
    ///
    /// A [`Fault`](office_words::Fault) says that nothing changed.
    fn handle(&mut self, alloc: Global, request: &Request) -> Answer
        ensures { IsHandled meaning self.old self.new request.now result };

    /// Handles the requests in their order, and gives an answer to each.
    ///
    /// After a crash what is left is the office of the last history, or that office with one event
    /// more, or with what was begun of one: that of a request of this call that was answered by a
    /// fault, as a fault may come once what was asked for is written.
    ///
    /// # Errors
    ///
    /// There was no room for the answers. No request was handled then.
    final fn run(&mut self, alloc: Global, requests: &[Request]) -> Result<Vec<Answer>, AllocError>
        ensures ran { IfOk result (λ answers.
            HaveRun meaning self.old self.new requests.now answers.items) }
        ensures left { IfOk result (λ answers. (h : History) → meaning.is_of h self.old
            → LeavesOnly meaning h self.old → meaning.is_clean self.new
            → (left : meaning.Left) → meaning.may_leave self.new left
            → AreLeft meaning (history_after_all h requests.now answers.items)
            requests.now answers.items left) }
        ensures none { OnErr result (self.new ≡ self.old) }
    {
        let mut answers = Vec::with_capacity(alloc, requests.len())?;
        for request in requests {
            let answer = self.handle(alloc, request);
            answers.push(answer)?;
        }
        Ok(answers)
    }
}
