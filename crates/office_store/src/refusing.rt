//! Why SQLite refuses a write. Each function here is a law, and does nothing.

ghost use Rattle.std.specs.Prelude.{◌≡◌, ◌^◌, ◌-◌, ℕ, List, [], ◌∷◌, pos, length};
ghost use Rattle.sqlite.specs.declared.types.Value.TheVariants.{Int, Text as SqlText};
ghost use Rattle.sqlite.specs.Effect.{Database};
ghost use Rattle.sqlite.specs.Held.{state};
ghost use Rattle.office_words.specs.declared.name.ProfileName.{ProfileName};
ghost use Rattle.office_words.specs.Tables.{Tables};
ghost use Rattle.office_words.specs.declared.fault.Fault.{Fault as TheFault};
ghost use Rattle.office_words.specs.declared.fault.Fault.TheVariants.{Full, NotAnOffice};
ghost use Rattle.office_words.specs.declared.row.UserRow.{UserRow};
ghost use Rattle.office_rows.specs.Refusals.{HasLongRowid, IsBig, LacksRowid};
ghost use Rattle.office_rows.specs.Statements.{Refuses};
ghost use Rattle.office_store.specs.Entries.{IsUser, IsProfileName, VoteEntry, IsVote};
ghost use Rattle.office_store.specs.Entries.{baseline_entry, IsBaseline};
ghost use Rattle.office_store.specs.Refusing.{Write, puts_user, puts_vote, puts_baseline};
ghost use Rattle.office_store.specs.Refusing.{puts_hold, deletes_hold, statements_of, Makes};
ghost use Rattle.office_store.specs.Refusing.{HaveOwnTokens, LacksPlace, LacksPlaceFor};
ghost use Rattle.office_store.specs.Shown.{IsIdle, Shows};

use sqlite::{Alter, Connection};

/// Where a connection shows tables, and no two users of those that a write makes show one token,
/// SQLite refuses none of its statements for a key that is taken: the table has no rowid for a row,
/// or the row is too big.
pub fn what_is_refused_has_no_place<S: Alter>(conn: &Connection<S>)
    ensures { (w : Write) (t u : Tables) (f : TheFault) → Makes w t u → HaveOwnTokens u
        → IsIdle (state S.Store conn.now) → Shows (state S.Store conn.now) t
        → Refuses S.Store (statements_of w) conn.now f → LacksPlaceFor S.Store w conn.now f }
{}

/// Of what is put into the tables only a revision can be too big, and what is taken out needs no
/// place.
pub fn only_a_revision_is_too_big()
    ensures user { (u : UserRow) (db : Database) → IsUser u → LacksPlace (puts_user u) db Full → ⊥ }
    ensures vote { (v : VoteEntry) (db : Database) → IsVote v
        → LacksPlace (puts_vote v) db Full → ⊥ }
    ensures baseline { (p : ProfileName) (n : ℕ) (db : Database)
        → IsBaseline (baseline_entry p n) → LacksPlace (puts_baseline p n) db Full → ⊥ }
    ensures hold { (p : ProfileName) (db : Database) → IsProfileName p
        → LacksPlace (puts_hold p) db Full → ⊥ }
    ensures end_of_hold { (p : ProfileName) (db : Database) (f : TheFault)
        → LacksPlace (deletes_hold p) db f → ⊥ }
    ensures form { (w : Write) (db : Database) → LacksPlace w db NotAnOffice → ⊥ }
{}

/// Which tables have no rowid for a row, and which rows are too big.
pub fn examples_of_places()
    ensures empty { LacksRowid [] → ⊥ }
    ensures next { LacksRowid ((Int (pos 7) ∷ []) ∷ []) → ⊥ }
    ensures greatest { LacksRowid ((Int (pos (2 ^ 63 - 1)) ∷ []) ∷ []) }
    ensures taken { LacksRowid ((Int (pos 8) ∷ []) ∷ (Int (pos 7) ∷ []) ∷ []) }
    ensures long { HasLongRowid ((Int (pos (2 ^ 63)) ∷ []) ∷ []) }
    ensures short { HasLongRowid ((Int (pos (2 ^ 63 - 1)) ∷ []) ∷ []) → ⊥ }
    ensures big { (text : List ℕ) → length text ≡ 10 ^ 9 → IsBig (SqlText text ∷ []) }
    ensures small { (text : List ℕ) → length text ≡ 10 ^ 9 - 18 → IsBig (SqlText text ∷ []) → ⊥ }
{}
