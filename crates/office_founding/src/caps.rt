//! The capabilities of a column of a row.

ghost use Rattle.std.specs.Prelude.{◌≡◌, ◌≢◌, ◌<◌, ◌^◌, ℕ, pos, length, Err, IfOk, IfErr};
ghost use Rattle.sqlite.specs.declared.types.Value.TheVariants.{Int};
ghost use Rattle.sqlite_value.specs.Order.{column};
ghost use Rattle.office_rows.specs.Told.{IsOfRow};

use cap_sets::Caps;
use office_rows::fault_of_error;
use office_words::Fault;
use sqlite::Row;

// The bits of a column.
fn bits_at(row: &Row, at: usize) -> Result<u64, Fault>
    ensures bits { IfOk result (λ bits.
        (at < length row.now) × (column row.now at ≡ Int (pos bits))) }
    ensures formed { (bits : ℕ) → at < length row.now → column row.now at ≡ Int (pos bits)
        → result ≢ Err Fault.NotAnOffice }
    ensures cause { IfErr result IsOfRow }
{
    row.get(at).map_err(fault_of_error)
}

/// The capabilities of a column.
pub(crate) fn caps_at(row: &Row, at: usize) -> Result<Caps, Fault>
    ensures caps { IfOk result (λ caps.
        (at < length row.now) × (column row.now at ≡ Int (pos caps)) × (caps < 2 ^ 41)) }
    ensures formed { (caps : ℕ) → at < length row.now
        → column row.now at ≡ Int (pos caps) → caps < 2 ^ 41
        → result ≢ Err Fault.NotAnOffice }
    ensures cause { IfErr result IsOfRow }
{
    match Caps::from_bits(bits_at(row, at)?) {
        Some(caps) => Ok(caps),
        None => Err(Fault::NotAnOffice),
    }
}
