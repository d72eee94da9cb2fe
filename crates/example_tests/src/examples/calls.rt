//! Which faults are of calls of a disk that failed.

ghost use Rattle.std.specs.Prelude.{◌-◌, ◌^◌};
ghost use Rattle.sealed_log.specs.Faults.{IsMetBetween, IsOfCall};
ghost use Rattle.sealed_log.specs.declared.fault.LogFault.{LogFault};
ghost use Rattle.sealed_log.specs.declared.fault.LogFault.TheVariants as faults;
ghost use Rattle.example_tests.specs.EdgeExamples.{FailsForRoomAlone, HasCounted};
ghost use Rattle.no_memory.specs.Witness.{witness};

use sqlite_disk::Disk;

/// A fault is of a call where the count of those that failed rose, or stands at the greatest `u64`:
/// `full` not where none was refused for want of room, and another not where each that failed was.
pub fn examples_of_faults_of_calls<D: Disk>()
    ensures disk { (old new : D) → HasCounted D.Disk old 3 2 → HasCounted D.Disk new 4 2
        → IsOfCall D.Disk old new faults.Disk }
    ensures memory { (old new : D) → HasCounted D.Disk old 3 2 → HasCounted D.Disk new 4 2
        → IsOfCall D.Disk old new (faults.NoMemory witness) }
    ensures room { (old new : D) → HasCounted D.Disk old 3 2 → HasCounted D.Disk new 4 3
        → IsOfCall D.Disk old new faults.Full }
    ensures greatest { (disk : D) → HasCounted D.Disk disk (2 ^ 64 - 1) 2
        → IsOfCall D.Disk disk disk faults.Disk }
    ensures none_failed { (old new : D) (fault : LogFault) → HasCounted D.Disk old 3 2
        → HasCounted D.Disk new 3 3 → IsOfCall D.Disk old new fault → ⊥ }
    ensures none_refused { (old new : D) → HasCounted D.Disk old 3 2 → HasCounted D.Disk new 4 2
        → IsOfCall D.Disk old new faults.Full → ⊥ }
    ensures each_refused { (old new : D) → HasCounted D.Disk old 3 2 → HasCounted D.Disk new 4 3
        → FailsForRoomAlone D.Disk → IsOfCall D.Disk old new faults.Disk → ⊥ }
{}

/// There may always have been no memory. Any other fault was met where it is of a call that failed.
pub fn examples_of_faults_met_between<D: Disk>()
    ensures memory { (old new : D) → IsMetBetween D.Disk old new (faults.NoMemory witness) }
    ensures disk { (old new : D) → HasCounted D.Disk old 3 2 → HasCounted D.Disk new 4 2
        → IsMetBetween D.Disk old new faults.Disk }
    ensures room { (old new : D) → HasCounted D.Disk old 3 2 → HasCounted D.Disk new 4 3
        → IsMetBetween D.Disk old new faults.Full }
    ensures none_failed { (disk : D) → HasCounted D.Disk disk 3 2
        → IsMetBetween D.Disk disk disk faults.Disk → ⊥ }
    ensures none_refused { (old new : D) → HasCounted D.Disk old 3 2 → HasCounted D.Disk new 4 2
        → IsMetBetween D.Disk old new faults.Full → ⊥ }
{}
