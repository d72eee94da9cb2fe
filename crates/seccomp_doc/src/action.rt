//! What becomes of a system call.

ghost use Rattle.std.specs.Prelude.{◌≡◌, Some, IfOk};
ghost use Rattle.seccomp_doc.specs.Checks.{Answers, errno_checks, first_fault};
ghost use Rattle.seccomp_doc.specs.Lawful.{IsLawfulAction};
ghost use Rattle.seccomp_doc.specs.Parts.{action_of};
ghost use Rattle.seccomp_doc.specs.Action.{action_word_named, action_word_text, errno_of, rank_of};
ghost use Rattle.seccomp_doc.specs.Action.{same_action, takes_errno, word_of};

use crate::fault::FilterFault;

/// The name of an action, without the number that some actions carry.
#[derive(Clone, Copy)]
pub enum ActionWord {
    /// `SCMP_ACT_KILL_PROCESS`: the process ends.
    KillProcess,
    /// `SCMP_ACT_KILL_THREAD`, also written `SCMP_ACT_KILL`: the calling thread ends.
    KillThread,
    /// `SCMP_ACT_TRAP`: the thread gets a signal SIGSYS.
    Trap,
    /// `SCMP_ACT_ERRNO`: the call fails with an error number.
    Errno,
    /// `SCMP_ACT_TRACE`: a tracer is notified, with a number.
    Trace,
    /// `SCMP_ACT_LOG`: the call is logged and runs.
    Log,
    /// `SCMP_ACT_ALLOW`: the call runs.
    Allow,
}

impl ActionWord {
    /// The action of this name, as libseccomp spells it. `SCMP_ACT_NOTIFY` is none of ours.
    #[tactic(auto, unfolding(crate::specs::Action::action_word_named))]
    pub fn from_word(word: &str) -> Option<ActionWord>
        ensures { result ≡ action_word_named word.now }
    {
        match word {
            "SCMP_ACT_KILL_PROCESS" => Some(ActionWord::KillProcess),
            "SCMP_ACT_KILL_THREAD" | "SCMP_ACT_KILL" => Some(ActionWord::KillThread),
            "SCMP_ACT_TRAP" => Some(ActionWord::Trap),
            "SCMP_ACT_ERRNO" => Some(ActionWord::Errno),
            "SCMP_ACT_TRACE" => Some(ActionWord::Trace),
            "SCMP_ACT_LOG" => Some(ActionWord::Log),
            "SCMP_ACT_ALLOW" => Some(ActionWord::Allow),
            _ => None,
        }
    }

    /// The name, as libseccomp spells it.
    #[tactic(auto, unfolding(crate::specs::Action::action_word_named))]
    pub fn word(self) -> &'static str
        ensures text { result.now ≡ action_word_text self }
        ensures reads_back { action_word_named result.now ≡ Some self }
    {
        match self {
            ActionWord::KillProcess => "SCMP_ACT_KILL_PROCESS",
            ActionWord::KillThread => "SCMP_ACT_KILL_THREAD",
            ActionWord::Trap => "SCMP_ACT_TRAP",
            ActionWord::Errno => "SCMP_ACT_ERRNO",
            ActionWord::Trace => "SCMP_ACT_TRACE",
            ActionWord::Log => "SCMP_ACT_LOG",
            ActionWord::Allow => "SCMP_ACT_ALLOW",
        }
    }

    /// Whether an action of this name carries a number.
    pub fn takes_errno(self) -> bool
        ensures { result ≡ takes_errno self }
    {
        matches!(self, ActionWord::Errno | ActionWord::Trace)
    }
}

/// What becomes of a system call, as seccomp(2) says it.
#[derive(Clone, Copy, PartialEq)]
pub enum Action {
    /// The process ends.
    KillProcess,
    /// The calling thread ends.
    KillThread,
    /// The thread gets a signal SIGSYS.
    Trap,
    /// The call fails with this error number.
    Errno(u16),
    /// A tracer is notified, with this number.
    Trace(u16),
    /// The call is logged and runs.
    Log,
    /// The call runs.
    Allow,
}

impl Action {
    /// Its place from the strictest, 0, to the most permissive, 6, in the order of seccomp(2). The
    /// number that an action carries doesn't count.
    pub fn rank(self) -> u8
        ensures { result ≡ rank_of self }
    {
        match self {
            Action::KillProcess => 0,
            Action::KillThread => 1,
            Action::Trap => 2,
            Action::Errno(_) => 3,
            Action::Trace(_) => 4,
            Action::Log => 5,
            Action::Allow => 6,
        }
    }

    // The action of this name, with this number. An absent number is 1.
    pub(crate) fn new(word: ActionWord, errno: Option<u64>) -> Result<Action, FilterFault>
        ensures answers { Answers (first_fault (errno_checks word errno))
            (action_of word errno) result }
        ensures lawful { IfOk result IsLawfulAction }
    {
        if errno.is_some() && !word.takes_errno() {
            return Err(FilterFault::ErrnoNotTaken);
        }
        let errno = errno.unwrap_or(1);
        if errno > 65535 {
            return Err(FilterFault::ErrnoTooLarge);
        }
        let errno = errno as u16;
        Ok(match word {
            ActionWord::KillProcess => Action::KillProcess,
            ActionWord::KillThread => Action::KillThread,
            ActionWord::Trap => Action::Trap,
            ActionWord::Errno => Action::Errno(errno),
            ActionWord::Trace => Action::Trace(errno),
            ActionWord::Log => Action::Log,
            ActionWord::Allow => Action::Allow,
        })
    }

    // Whether it is the same action, with the same number.
    pub(crate) fn is_same(self, other: Action) -> bool
        ensures { result ≡ same_action self other }
    {
        self == other
    }

    /// Its name without its number.
    pub fn action_word(self) -> ActionWord
        ensures { result ≡ word_of self }
    {
        match self {
            Action::KillProcess => ActionWord::KillProcess,
            Action::KillThread => ActionWord::KillThread,
            Action::Trap => ActionWord::Trap,
            Action::Errno(_) => ActionWord::Errno,
            Action::Trace(_) => ActionWord::Trace,
            Action::Log => ActionWord::Log,
            Action::Allow => ActionWord::Allow,
        }
    }

    /// Its name, as libseccomp spells it.
    pub fn word(self) -> &'static str
        ensures { result.now ≡ action_word_text (word_of self) }
    {
        self.action_word().word()
    }

    /// The number that it carries: for `Errno` and `Trace` alone.
    pub fn errno(self) -> Option<u16>
        ensures { result ≡ errno_of self }
    {
        match self {
            Action::Errno(number) | Action::Trace(number) => Some(number),
            _ => None,
        }
    }
}
