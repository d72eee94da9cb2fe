//! Documents that aren't compared.

ghost use Rattle.std.specs.Prelude.{◌≡◌, ◌≢◌, ℕ, List, Some, Ok, Err};
ghost use Rattle.std.specs.IoError.{error_kind};
ghost use Rattle.std.specs.declared.io.Error.{Error};
ghost use Rattle.std.specs.declared.io.ErrorKind.TheVariants.{Interrupted};
ghost use Rattle.streams.specs.declared.unread.Unread.TheVariants.{Failed, TooManyReads};
ghost use Rattle.profile_text.specs.Reading.{reading_of};
ghost use Rattle.profile_text.specs.declared.fault.DocFault.{DocFault};
ghost use Rattle.profile_text.specs.declared.profile.Profile.{Profile};
ghost use Rattle.profile_commands.specs.Refusal.{no_memory};
ghost use Rattle.profile_commands.specs.declared.compare.ComparedFault.TheVariants as compared;
ghost use Rattle.profile_commands.specs.declared.fault.FileFault.{FileFault};
ghost use Rattle.profile_commands.specs.declared.fault.FileFault.TheVariants as file;
ghost use Rattle.reading_commands.specs.DocumentFailures.{IsUncompared};
ghost use Rattle.example_tests.specs.EdgeExamples.{base, fails, file_at, never_fails, new};
ghost use Rattle.no_memory.specs.Witness.{witness};

/// Two documents aren't compared where BASE can't be opened, can't be read or is none; or where it
/// is one and NEW is none. There may always have been no memory, which is told of neither.
pub fn examples_of_documents_that_are_not_compared()
    ensures no_base { (e : Error) (bytes : List ℕ) → IsUncompared (file_at new bytes) never_fails
        Some base new (compared.Base (file.Unread Failed)) }
    ensures unread { (e : Error) (bytes : List ℕ) → error_kind e ≢ Interrupted
        → IsUncompared (file_at base bytes) (fails e) Some base new
        (compared.Base (file.Unread Failed)) }
    ensures no_document { (bytes : List ℕ) (fault : DocFault) → reading_of bytes ≡ Err fault
        → IsUncompared (file_at base bytes) never_fails Some base new
        (compared.Base (file.Document fault)) }
    ensures no_new { (e : Error) (bytes : List ℕ) (p : Profile) → reading_of bytes ≡ Ok p
        → IsUncompared (file_at base bytes) never_fails Some base new
        (compared.New (file.Unread Failed)) }
    ensures memory { (bytes : List ℕ) → IsUncompared (file_at base bytes) never_fails Some base new
        (compared.NoMemory witness) }
    ensures read { (bytes : List ℕ) → IsUncompared (file_at base bytes) never_fails Some base new
        (compared.Base (file.Unread Failed)) → ⊥ }
    ensures read_too_often { (bytes : List ℕ) → IsUncompared (file_at new bytes) never_fails
        Some base new (compared.Base (file.Unread TooManyReads)) → ⊥ }
    ensures document { (bytes : List ℕ) (fault : DocFault) (p : Profile) → reading_of bytes ≡ Ok p
        → IsUncompared (file_at base bytes) never_fails Some base new
        (compared.Base (file.Document fault)) → ⊥ }
    ensures without_base { (bytes : List ℕ) (why : FileFault)
        → IsUncompared (file_at new bytes) never_fails Some base new (compared.New why) → ⊥ }
    ensures beside_none { (bytes : List ℕ) (fault : DocFault) (why : FileFault)
        → reading_of bytes ≡ Err fault
        → IsUncompared (file_at base bytes) never_fails Some base base (compared.New why) → ⊥ }
    ensures new_read { (bytes : List ℕ) → IsUncompared (file_at base bytes) never_fails
        Some base base (compared.New (file.Unread Failed)) → ⊥ }
    ensures memory_of_base { (bytes : List ℕ) → IsUncompared (file_at base bytes) never_fails
        Some base new (compared.Base no_memory) → ⊥ }
    ensures memory_of_new { (bytes : List ℕ) → IsUncompared (file_at base bytes) never_fails
        Some base new (compared.New no_memory) → ⊥ }
{}
