//! The faults of a store, of the errors of `sqlite`.

ghost use Rattle.std.specs.Prelude.{◌≡◌, ◌∷◌, [], map, replicate, ℕ};
ghost use Rattle.office_rows.specs.Faults.{fault_of_error};
ghost use Rattle.office_words.specs.declared.fault.Fault.TheVariants.{Disk};
ghost use Rattle.office_words.specs.declared.fault.Fault.TheVariants.{Full, NotAnOffice};
ghost use Rattle.sqlite.specs.declared.error.Error.TheVariants as error;
ghost use Rattle.sqlite.specs.declared.error.ErrorCode.TheVariants as code;
ghost use Rattle.sqlite.specs.declared.types.Type.{«Type» as SqlType};
ghost use Rattle.sqlite_resolve.specs.declared.error.CompileError.{CompileError};
ghost use Rattle.sqlite_schema.specs.declared.schema.Constraint.{Constraint};
ghost use Rattle.no_memory.specs.Witness.{witness};

use no_memory::NoMemory;
use office_words::Fault;
use sqlite::{Error, ErrorCode};

/// The fault of a store that an error of `sqlite` is. A text that isn't understood and a value of
/// another kind are `NotAnOffice`; what is neither out of memory nor out of room is `Disk`.
pub fn fault_of_error(error: Error) -> Fault
    ensures { result ≡ fault_of_error error }
{
    match error {
        Error::SqliteFailure(ErrorCode::OutOfMemory) => Fault::NoMemory(NoMemory::told()),
        Error::SqliteFailure(ErrorCode::DiskFull | ErrorCode::TooBig) => Fault::Full,
        Error::SqlInputError(_) => Fault::NotAnOffice,
        Error::InvalidColumnIndex(_)
        | Error::InvalidColumnType(_, _)
        | Error::IntegralValueOutOfRange(_)
        | Error::Utf8Error(_) => Fault::NotAnOffice,
        _ => Fault::Disk,
    }
}

/// Which fault each error of `sqlite` is.
pub fn each_error_is_its_fault()
    ensures memory { fault_of_error (error.SqliteFailure code.OutOfMemory) ≡ Fault.NoMemory witness }
    ensures full { map (λ c. fault_of_error (error.SqliteFailure c))
        (code.DiskFull ∷ code.TooBig ∷ []) ≡ replicate 2 Full }
    ensures disk { map (λ c. fault_of_error (error.SqliteFailure c))
        (code.SystemIoFailure ∷ code.DatabaseCorrupt ∷ code.NotADatabase ∷ code.Closed
        ∷ code.CannotOpen ∷ code.DatabaseBusy ∷ [])
        ≡ replicate 6 Disk }
    ensures constraint { (c : Constraint)
        → fault_of_error (error.SqliteFailure (code.ConstraintViolation c)) ≡ Disk }
    ensures refused { map (λ c. fault_of_error (error.SqliteFailure c))
        (code.TypeMismatch ∷ code.IntegerOverflow ∷ code.NoRowid ∷ code.ForeignKeyMismatch
        ∷ code.TooDeep ∷ code.NoClock ∷ code.NameTaken ∷ code.BadName ∷ code.BadKey ∷ code.BadText
        ∷ code.SchemaTooBig ∷ code.TransactionState ∷ code.NoSuchSavepoint
        ∷ code.OperationInterrupted ∷ [])
        ≡ replicate 14 Disk }
    ensures text { (why : CompileError) → fault_of_error (error.SqlInputError why) ≡ NotAnOffice }
    ensures column { (at : ℕ) (kind : SqlType) → map fault_of_error
        (error.InvalidColumnIndex at ∷ error.InvalidColumnType at kind
        ∷ error.IntegralValueOutOfRange at ∷ error.Utf8Error at ∷ [])
        ≡ replicate 4 NotAnOffice }
    ensures statement { (given wanted : ℕ) → map fault_of_error
        (error.InvalidParameterCount given wanted ∷ error.ExecuteReturnedResults
        ∷ error.InvalidQuery ∷ error.MultipleStatement ∷ error.QueryReturnedNoRows ∷ [])
        ≡ replicate 5 Disk }
{}
