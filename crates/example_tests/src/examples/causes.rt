//! Which faults have a cause, and what a call leaves of an office.

ghost use Rattle.std.specs.Prelude.{◌≡◌, ◌-◌, ◌^◌, Some, None, Option, List, ℕ};
ghost use Rattle.review_policy.specs.declared.ask.Request.{Request};
ghost use Rattle.review_policy.specs.declared.answer.Answer.TheVariants.{Fault};
ghost use Rattle.review_policy.specs.declared.answer.Reply.{Reply};
ghost use Rattle.review_policy.specs.declared.denial.Denial.{Denial};
ghost use Rattle.office_words.specs.declared.fault.Fault.TheVariants as faults;
ghost use Rattle.office_policy.specs.Handled.{HasCause, HasRisen, IsUnwritten, LacksMemory};
ghost use Rattle.office_policy.specs.Handled.{LeavesUndone, Survives};
ghost use Rattle.office_policy.specs.History.{Event, History};
ghost use Rattle.office_policy.specs.Verdict.{Verdict, accepted, denied, verdict};
ghost use Rattle.example_tests.specs.Examples.{Sketch, counting, grown, maybe_grown, shut, quiet};
ghost use Rattle.example_tests.specs.Examples.{beginning, enrols, founding, founds, refusing};
ghost use Rattle.no_memory.specs.Witness.{witness};

/// A count of faults rose by one or more, or stands at the greatest `u64`.
pub fn examples_of_counts_that_rose()
    ensures by_one { HasRisen 3 4 }
    ensures by_more { HasRisen 0 7 }
    ensures greatest { HasRisen (2 ^ 64 - 1) (2 ^ 64 - 1) }
    ensures equal { HasRisen 3 3 → ⊥ }
    ensures fewer { HasRisen 3 2 → ⊥ }
{}

/// A fault of room has a cause where the count rose, or where the event that is to be written is
/// refused for room; not where it is refused for the disk, or no event is to be written.
pub fn examples_of_causes_of_full()
    ensures risen { (h : History) (r : Request)
        → HasCause quiet (counting 3) (counting 4) h r (Fault faults.Full) }
    ensures greatest { (h : History) (r : Request)
        → HasCause quiet (counting (2 ^ 64 - 1)) (counting (2 ^ 64 - 1)) h r (Fault faults.Full) }
    ensures refused { (h : History) (r : Request) (reply : Reply) (e : Event)
        → verdict h r ≡ accepted reply (Some e)
        → HasCause (refusing faults.Full) (counting 3) (counting 3) h r (Fault faults.Full) }
    ensures unmet { (h : History) (r : Request)
        → HasCause quiet (counting 3) (counting 3) h r (Fault faults.Full) → ⊥ }
    ensures refused_for_disk { (h : History) (r : Request)
        → HasCause (refusing faults.Disk) (counting 3) (counting 3) h r (Fault faults.Full) → ⊥ }
    ensures only_read { (h : History) (r : Request) (reply : Reply)
        → verdict h r ≡ accepted reply None
        → HasCause (refusing faults.Full) (counting 3) (counting 3) h r (Fault faults.Full) → ⊥ }
    ensures denied { (h : History) (r : Request) (d : Denial) (told : Option (List ℕ))
        → verdict h r ≡ denied d told
        → HasCause (refusing faults.Full) (counting 3) (counting 3) h r (Fault faults.Full) → ⊥ }
{}

/// A fault of the disk has one also where the office was shut before; none is for the form of the
/// tables, whatever rose or was refused.
pub fn examples_of_causes_of_disk()
    ensures risen { (h : History) (r : Request)
        → HasCause quiet (counting 3) (counting 4) h r (Fault faults.Disk) }
    ensures shut { (h : History) (r : Request)
        → HasCause quiet (shut 3) (shut 3) h r (Fault faults.Disk) }
    ensures unmet { (h : History) (r : Request)
        → HasCause quiet (counting 3) (counting 3) h r (Fault faults.Disk) → ⊥ }
    ensures refused_for_room { (h : History) (r : Request)
        → HasCause (refusing faults.Full) (counting 3) (counting 3) h r (Fault faults.Disk) → ⊥ }
    ensures form { (old new : Sketch) (h : History) (r : Request)
        → HasCause (refusing faults.NotAnOffice) old new h r (Fault faults.NotAnOffice) → ⊥ }
{}

/// There is no memory where nothing was written, or where the event is refused for memory; not
/// where an event was written, or a crash may leave one more.
pub fn examples_of_causes_of_memory()
    ensures unwritten { (h : History) (r : Request)
        → HasCause quiet (counting 3) (counting 3) h r (Fault (faults.NoMemory witness)) }
    ensures refused { (h : History) (r : Request) (reply : Reply) (e : Event)
        → verdict h r ≡ accepted reply (Some e)
        → HasCause (refusing (faults.NoMemory witness)) (counting 3) (grown 3) h r (Fault (faults.NoMemory witness)) }
    ensures written { (h : History) (r : Request)
        → HasCause quiet (counting 3) (grown 3) h r (Fault (faults.NoMemory witness)) → ⊥ }
    ensures in_doubt { (h : History) (r : Request)
        → HasCause quiet (counting 3) (maybe_grown 3) h r (Fault (faults.NoMemory witness)) → ⊥ }
    ensures refused_for_room { (h : History) (r : Request)
        → HasCause (refusing faults.Full) (counting 3) (grown 3) h r (Fault (faults.NoMemory witness)) → ⊥ }
    ensures lacks { (h : History) (r : Request) → LacksMemory quiet (counting 3) (shut 4) h r }
    ensures has { (h : History) (r : Request) → LacksMemory quiet (counting 3) (grown 3) h r → ⊥ }
{}

/// Nothing was written where the office has what it had, and a crash leaves no more.
pub fn examples_of_what_is_unwritten()
    ensures same { IsUnwritten quiet (counting 3) (shut 4) }
    ensures less { IsUnwritten quiet (maybe_grown 3) (counting 3) }
    ensures written { IsUnwritten quiet (counting 3) (grown 3) → ⊥ }
    ensures in_doubt { IsUnwritten quiet (counting 3) (maybe_grown 3) → ⊥ }
{}

/// Nothing is done where the office has what it had, and a crash leaves no more than what was begun
/// of the event that is to be written; not what was begun of another, or where none is.
pub fn examples_of_what_is_left_undone()
    ensures same { (h : History) (v : Verdict)
        → LeavesUndone quiet (counting 3) (shut 4) h v }
    ensures begun { (reply : Reply) → LeavesUndone beginning (counting 3) (maybe_grown 3) founding
        (accepted reply (Some enrols)) }
    ensures written { (h : History) (v : Verdict)
        → LeavesUndone quiet (maybe_grown 3) (grown 3) h v → ⊥ }
    ensures in_doubt { (h : History) (v : Verdict)
        → LeavesUndone quiet (counting 3) (maybe_grown 3) h v → ⊥ }
    ensures other_begun { (reply : Reply) → LeavesUndone beginning (counting 3) (maybe_grown 3)
        founding (accepted reply (Some (founds 6))) → ⊥ }
    ensures only_read { (reply : Reply) → LeavesUndone beginning (counting 3) (maybe_grown 3)
        founding (accepted reply None) → ⊥ }
    ensures denied { (d : Denial) (told : Option (List ℕ)) → LeavesUndone beginning (counting 3)
        (maybe_grown 3) founding (denied d told) → ⊥ }
{}

/// No fault is forgotten, only a fault shuts an office, and none that was shut is open again.
pub fn examples_of_what_survives()
    ensures same { Survives quiet (counting 3) (counting 3) }
    ensures shut_by_a_fault { Survives quiet (counting 3) (shut 4) }
    ensures forgotten { Survives quiet (counting 3) (counting 2) → ⊥ }
    ensures shut_by_none { Survives quiet (counting 3) (shut 3) → ⊥ }
    ensures opened { Survives quiet (shut 3) (counting 4) → ⊥ }
{}
