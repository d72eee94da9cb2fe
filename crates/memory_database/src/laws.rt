//! What holds of databases in memory, apart from any call. Each is a function without a parameter
//! whose contract is the law; it does nothing.

ghost use Rattle.std.specs.Prelude.{◌≡◌, ℕ, false, List, ⊤};
ghost use Rattle.sqlite.specs.Held.{Held, state};
ghost use Rattle.sqlite.specs.State.{Fails, HasCleanDisk, is_disk_error};
ghost use Rattle.sqlite.specs.declared.error.Error.{Error};
ghost use Rattle.sqlite.specs.declared.error.Error.TheVariants.{SqliteFailure};
ghost use Rattle.sqlite.specs.declared.error.ErrorCode.TheVariants.{OutOfMemory, SystemIoFailure};
ghost use Rattle.memory_database.specs.Copies.{CopyStore, FailsToCopy, HoldOne, over_copy};
ghost use Rattle.memory_database.specs.MemoryStore.{MemoryStore, over_memory};

/// Memory returns what was written, so all that is said under `HasCleanDisk` holds.
pub fn memory_is_clean()
    ensures { (conn : Held MemoryStore) → HasCleanDisk (state over_memory conn) }
{}

/// So does a copy of files.
pub fn a_copy_is_clean()
    ensures { (conn : Held CopyStore) → HasCleanDisk (state over_copy conn) }
{}

/// No statement is told to have failed for its disk.
pub fn no_disk_fails()
    ensures { (old new : Held MemoryStore) (error : Error)
        → Fails (state over_memory old) (state over_memory new) ⊤ error
        → is_disk_error error ≡ false }
{}

/// Where the bytes of two files hold a database, or nothing yet, a copy of them fails for want of
/// memory alone; and none is told to fail for its disk.
pub fn want_of_memory_fails_a_copy()
    ensures held { (log database : List ℕ) (error : Error) → HoldOne log database
        → FailsToCopy log database error → error ≡ SqliteFailure OutOfMemory }
    ensures disk { (log database : List ℕ)
        → FailsToCopy log database (SqliteFailure SystemIoFailure) → ⊥ }
{}
