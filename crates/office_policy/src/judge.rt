//! Whoever judges requests before it carries them out.

ghost use Rattle.office_policy.specs.Handled.{IsHandled, Survives};
ghost use Rattle.office_policy.specs.Judging.{IsJudged, IsPermitted, answer_in};

use crate::change::Change;
use crate::handler::Handler;
use office_words::{Fault, UserRow};
use review_policy::{Answer, Reply, Request};
use std::alloc::Global;

/// What every rule of the policy allows, and is to be carried out.
#[derive(Drop)]
pub struct Allowed {
    /// Who asks for it.
    pub caller: UserRow,
    /// What is to happen.
    pub change: Change,
    /// What is answered once it is done.
    pub reply: Reply,
}

/// What a request comes to, before anything is changed.
#[derive(Drop)]
pub enum Judgement {
    /// It changes nothing, and this is its answer.
    Answered(Answer),
    /// Every rule allows it, and it changes something.
    Allowed(Allowed),
}

/// A handler of requests in two steps, between which others may write down what is to happen.
pub trait Judge: Handler {
    /// Judges a request, and changes nothing.
    fn judge(&mut self, alloc: Global, request: &Request) -> Judgement
        ensures { IsJudged Self.Handler.meaning self.old self.new request.now result };

    /// Carries out what was allowed of a request when it was judged, before anything else was
    /// asked.
    ///
    /// # Errors
    ///
    /// A fault says that nothing changed.
    fn carry_out(&mut self, alloc: Global, allowed: &Allowed) -> Result<(), Fault>
        requires { (before : Self) × (request : Request)
            × IsPermitted Self.Handler.meaning before self.old request allowed.now }
        ensures handled { (before : Self) (request : Request)
            → IsPermitted Self.Handler.meaning before self.old request allowed.now
            → IsHandled Self.Handler.meaning before self.new request
            (answer_in allowed.now result) }
        ensures survives { Survives Self.Handler.meaning self.old self.new };
}
