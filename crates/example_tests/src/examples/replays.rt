//! What comes of looking at an office, and of an event that is to happen again.

ghost use Rattle.std.specs.Prelude.{Ok, Err};
ghost use Rattle.review_policy.specs.declared.denial.Denial.{Denial};
ghost use Rattle.office_words.specs.declared.fault.Fault.TheVariants as faults;
ghost use Rattle.office_policy.specs.History.{Event};
ghost use Rattle.review_office.specs.declared.replay.Unreplayed.TheVariants as causes;
ghost use Rattle.review_office.specs.Looking.{IsMetBetween};
ghost use Rattle.review_office.specs.Replayed.{IsRefused, IsReplayed};
ghost use Rattle.example_tests.specs.Examples.{Sketch, counting, grown, shut, enrols, founds};
ghost use Rattle.example_tests.specs.Examples.{quiet, refusing};
ghost use Rattle.no_memory.specs.Witness.{witness};

/// While an office is looked at there is a fault of room only where the count rose, and one of the
/// disk only then or where the office was shut before.
pub fn examples_of_faults_while_looking()
    ensures room { IsMetBetween quiet (counting 3) (counting 4) faults.Full }
    ensures disk { IsMetBetween quiet (counting 3) (counting 4) faults.Disk }
    ensures disk_shut { IsMetBetween quiet (shut 3) (shut 3) faults.Disk }
    ensures memory { IsMetBetween quiet (counting 3) (counting 3) (faults.NoMemory witness) }
    ensures no_room { IsMetBetween quiet (counting 3) (counting 3) faults.Full → ⊥ }
    ensures no_disk { IsMetBetween quiet (counting 3) (counting 3) faults.Disk → ⊥ }
    ensures form { (old new : Sketch) → IsMetBetween quiet old new faults.NotAnOffice → ⊥ }
{}

/// An event doesn't happen again for such a fault; nor where it is allowed and refused with it.
pub fn examples_of_faults_of_a_replay()
    ensures room { IsReplayed quiet (counting 3) (counting 4) enrols
        (Err (causes.Fault faults.Full)) }
    ensures refused { IsReplayed (refusing faults.Full) (counting 3) (counting 3) enrols
        (Err (causes.Fault faults.Full)) }
    ensures no_room { (e : Event) → IsReplayed quiet (counting 3) (counting 3) e
        (Err (causes.Fault faults.Full)) → ⊥ }
    ensures no_disk { (e : Event) → IsReplayed quiet (counting 3) (counting 3) e
        (Err (causes.Fault faults.Disk)) → ⊥ }
    ensures not_allowed { IsReplayed (refusing faults.Full) (counting 3) (counting 3) (founds 5)
        (Err (causes.Fault faults.Full)) → ⊥ }
    ensures form { (e : Event) → IsReplayed (refusing faults.NotAnOffice) (counting 3) (counting 4)
        e (Err (causes.Fault faults.NotAnOffice)) → ⊥ }
    ensures changed { IsReplayed quiet (counting 3) (grown 4) enrols
        (Err (causes.Fault faults.Full)) → ⊥ }
{}

/// An event is refused where it isn't allowed, for a reason, and nothing is changed.
pub fn examples_of_refused_replays()
    ensures second_founding { IsReplayed quiet (counting 3) (counting 3) (founds 5)
        (Err causes.Founding) }
    ensures enrolment { IsReplayed quiet (counting 3) (counting 3) enrols (Err causes.Founding)
        → ⊥ }
    ensures no_rule { (d : Denial) → IsReplayed quiet (counting 3) (counting 3) (founds 5)
        (Err (causes.Denied d)) → ⊥ }
    ensures allowed { IsRefused quiet (counting 3) (counting 3) enrols (λ h. Unit {0}) → ⊥ }
    ensures no_reason { IsRefused quiet (counting 3) (counting 3) (founds 5) (λ h. ⊥) → ⊥ }
    ensures changed { IsRefused quiet (counting 3) (grown 3) (founds 5) (λ h. Unit {0}) → ⊥ }
    ensures shut { IsRefused quiet (counting 3) (shut 4) (founds 5) (λ h. Unit {0}) → ⊥ }
{}

/// An event happened again where it is allowed and the office is the one with it.
pub fn examples_of_events_that_happened_again()
    ensures enrolment { IsReplayed quiet (counting 3) (grown 3) enrols (Ok tt) }
    ensures not_written { IsReplayed quiet (counting 3) (counting 3) enrols (Ok tt) → ⊥ }
    ensures not_allowed { (new : Sketch) → IsReplayed quiet (counting 3) new (founds 5) (Ok tt)
        → ⊥ }
{}
