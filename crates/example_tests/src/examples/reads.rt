//! Which faults tell that a journal couldn't be read, and what becomes of files that were made.

ghost use Rattle.std.specs.Prelude.{◌≡◌, ◌≢◌, Ok, Err, true, false};
ghost use Rattle.std.specs.IoError.{error_kind};
ghost use Rattle.std.specs.declared.io.Error.{Error};
ghost use Rattle.std.specs.declared.io.ErrorKind.TheVariants.{Interrupted};
ghost use Rattle.sealed_log.specs.declared.unreadable.Unreadable.TheVariants.{Read, TornLine};
ghost use Rattle.journal_faults.specs.declared.no_evidence.NoEvidence.TheVariants as evidence;
ghost use Rattle.journal_faults.specs.declared.unverified.Unverified.TheVariants as unverified;
ghost use Rattle.journal_faults.specs.declared.unwritten.Unwritten.TheVariants as unwritten;
ghost use Rattle.command_host.specs.ReadFaults.{IsToldOf};
ghost use Rattle.command_host.specs.Made.{IsCleared, IsLetGo};
ghost use Rattle.command_host.specs.declared.fault.CommandFault.{CommandFault};
ghost use Rattle.command_host.specs.declared.fault.CommandFault.TheVariants as fault;
ghost use Rattle.command_host.specs.declared.noted.NoneFailed.{NoneFailed};
ghost use Rattle.example_tests.specs.EdgeExamples.{fails, just, never_fails, unread};

/// A fault is told as it is; but one that tells that the journal couldn't be read only where a call
/// of read failed and wasn't interrupted, and else as that the journal is endless.
pub fn examples_of_faults_that_are_told()
    ensures opened { IsToldOf never_fails fault.Open fault.Open }
    ensures torn { IsToldOf never_fails (fault.Unbuilt (unread TornLine))
        (fault.Unbuilt (unread TornLine)) }
    ensures failed { (e : Error) → error_kind e ≢ Interrupted → IsToldOf (fails e)
        (fault.Unbuilt (unread Read)) (fault.Unbuilt (unread Read)) }
    ensures endless { (none : NoneFailed) → IsToldOf never_fails (fault.Unbuilt (unread Read))
        (fault.Endless none) }
    ensures other { IsToldOf never_fails fault.Open fault.Close → ⊥ }
    ensures endless_unopened { (none : NoneFailed)
        → IsToldOf never_fails fault.Open (fault.Endless none) → ⊥ }
    ensures interrupted { (e : Error) → error_kind e ≡ Interrupted → IsToldOf (fails e)
        (fault.Unbuilt (unread Read)) (fault.Unbuilt (unread Read)) → ⊥ }
    ensures unbuilt { IsToldOf never_fails (fault.Unbuilt (unread Read))
        (fault.Unbuilt (unread Read)) → ⊥ }
    ensures unverified { (told : CommandFault)
        → told ≡ fault.Unverified (unverified.Refused (unread Read))
        → IsToldOf never_fails told told → ⊥ }
    ensures unwritten { (told : CommandFault)
        → told ≡ fault.Unwritten (unwritten.Refused (unread Read))
        → IsToldOf never_fails told told → ⊥ }
    ensures no_evidence { (told : CommandFault)
        → told ≡ fault.NoEvidence (evidence.Refused (unread Read))
        → IsToldOf never_fails told told → ⊥ }
{}

/// A file that was made is removed where it has no bytes, and left where it has some.
pub fn examples_of_files_that_are_cleared()
    ensures removed { IsCleared (just (Ok 0)) (just (Ok tt)) (Ok tt) }
    ensures left { IsCleared (just (Ok 3)) (λ removed. ⊥) (Ok tt) }
    ensures unmeasured { (e : Error) → IsCleared (just (Err e)) (λ removed. ⊥) (Err e) }
    ensures there_still { (e : Error) → IsCleared (just (Ok 0)) (just (Err e)) (Ok tt) → ⊥ }
    ensures not_empty { (e : Error) → IsCleared (just (Ok 3)) (just (Err e)) (Err e) → ⊥ }
    ensures unknown { (e : Error) → IsCleared (just (Err e)) (just (Ok tt)) (Ok tt) → ⊥ }
{}

/// It is so only where it is locked and its path leads to it, and else left.
pub fn examples_of_files_that_are_let_go()
    ensures removed { IsLetGo (just true) (just true) (just (Ok 0)) (just (Ok tt)) (Ok tt) }
    ensures locked { IsLetGo (just false) (λ led. ⊥) (λ len. ⊥) (λ removed. ⊥) (Ok tt) }
    ensures elsewhere { IsLetGo (just true) (just false) (λ len. ⊥) (λ removed. ⊥) (Ok tt) }
    ensures unlocked { (e : Error)
        → IsLetGo (just false) (just true) (just (Ok 0)) (just (Err e)) (Err e) → ⊥ }
    ensures of_another { (e : Error)
        → IsLetGo (just true) (just false) (just (Ok 0)) (just (Err e)) (Err e) → ⊥ }
    ensures stays { IsLetGo (just true) (just true) (just (Ok 0)) (λ removed. ⊥) (Ok tt) → ⊥ }
{}
