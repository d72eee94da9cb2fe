//! Worked examples, each proved by computing: what looking at a store says of its schema, and the
//! words of faults.

ghost use Rattle.std.specs.Prelude.{◌≡◌, ◌∷◌, [], ℕ, pos, List, Some, None, Ok, Err, codes, map};
ghost use Rattle.std.specs.Prelude.{replicate, Bool, true, false};
ghost use Rattle.sqlite.specs.declared.types.Value.TheVariants.{Int};
ghost use Rattle.sqlite.specs.Effect.{Database};
ghost use Rattle.sqlite.specs.Held.{Held, state};
ghost use Rattle.sqlite.specs.Order.{Row};
ghost use Rattle.office_words.specs.declared.name.ProfileName.{ProfileName};
ghost use Rattle.office_words.specs.declared.revision.State.TheVariants as states;
ghost use Rattle.office_words.specs.Tables.{Tables};
ghost use Rattle.office_store.specs.Entries.{state_number};
ghost use Rattle.office_words.specs.declared.fault.Fault.{Fault};
ghost use Rattle.office_words.specs.declared.fault.Fault.TheVariants.{NotAnOffice, Full};
ghost use Rattle.office_founding.specs.declared.fault.FoundingFault.TheVariants as founding;
ghost use Rattle.office_founding.specs.declared.fault.MigrationFault.TheVariants as migration;
ghost use Rattle.office_founding.specs.declared.fault.OpeningFault.TheVariants as opening;
ghost use Rattle.office_founding.specs.Examples.{old_columns, added_columns, office_columns};
ghost use Rattle.office_founding.specs.Examples.{less, less_index, alone, notes_table};
ghost use Rattle.office_founding.specs.Examples.{names_at, keys_of, old_tables, HasNow, HasOldRows};
ghost use Rattle.office_founding.specs.Faults.{founding_fault_word, opening_fault_word};
ghost use Rattle.office_founding.specs.Faults.{migration_fault_word};
ghost use Rattle.office_founding.specs.Form.{has_column, has_old_tables, has_tables, has_indexes};
ghost use Rattle.office_founding.specs.Form.{added_by, opening_of, old_form, new_form};
ghost use Rattle.office_founding.specs.Form.{numbered_row, IsOldOrFailure, HasForm, HasOfficeRow};
ghost use Rattle.office_founding.specs.Founding.{has_table};
ghost use Rattle.office_founding.specs.Migration.{IsOldOffice, old_office_row};
ghost use Rattle.office_store.specs.Schema.{no_schema, old_schema, tables_schema, office_schema};
ghost use Rattle.office_store.specs.Schema.{office_table, users_table, revisions_table};
ghost use Rattle.office_store.specs.Schema.{votes_table, baselines_table, holds_table};
ghost use Rattle.office_store.specs.Shown.{office_row};

use sqlite::Alter;

/// The tables of an office are there only with each column of each of them; those of schema 1 with
/// each of its own.
#[tactic(auto, unfolding(sqlite_schema::specs::Names::same_name))]
pub fn examples_of_tables()
    ensures office { has_tables office_schema ≡ true }
    ensures each_column { map (λ c. has_column office_schema c.0 c.1) office_columns
        ≡ replicate 25 true }
    ensures less_a_column { map (λ c. has_tables (less office_schema c)) office_columns
        ≡ replicate 25 false }
    ensures old { has_old_tables old_schema ≡ true }
    ensures less_an_old_column { map (λ c. has_old_tables (less old_schema c)) old_columns
        ≡ replicate 23 false }
    ensures without_holds { has_tables old_schema ≡ false }
    ensures holds_are_new { map (λ c. has_old_tables (less office_schema c)) added_columns
        ≡ replicate 2 true }
    ensures none { has_old_tables no_schema ≡ false }
{}

/// Both indexes are asked for.
#[tactic(auto, unfolding(sqlite_schema::specs::Names::same_name))]
pub fn examples_of_indexes()
    ensures both { has_indexes office_schema ≡ true }
    ensures by_author { has_indexes (less_index office_schema (codes "revisions_by_state"))
        ≡ false }
    ensures by_state { has_indexes (less_index office_schema (codes "revisions_by_author"))
        ≡ false }
    ensures none { has_indexes tables_schema ≡ false }
{}

/// The keys of each table, of which no two rows have the same values, and the index of each, by the
/// tree of its table; of the columns of the two other indexes any rows may have the same values.
pub fn examples_of_keys()
    ensures keys { map {B = List ℕ × List (List (List ℕ))} (λ t. (t.name, keys_of t))
        office_schema.tables
        ≡ (codes "office", [])
        ∷ (codes "users", (codes "name" ∷ []) ∷ (codes "token" ∷ []) ∷ [])
        ∷ (codes "revisions", (codes "team" ∷ codes "profile" ∷ codes "number" ∷ []) ∷ [])
        ∷ (
          codes "votes",
          (codes "team" ∷ codes "profile" ∷ codes "number" ∷ codes "voter" ∷ []) ∷ [],
        )
        ∷ (codes "baselines", (codes "team" ∷ []) ∷ [])
        ∷ (codes "holds", (codes "team" ∷ codes "profile" ∷ []) ∷ [])
        ∷ [] }
    ensures rowids { map (λ t. t.key) office_schema.tables
        ≡ Some 0 ∷ None ∷ None ∷ None ∷ None ∷ None ∷ [] }
    ensures indexes { map {B = ℕ × List ℕ × Bool} (λ i. (i.table, i.columns, i.is_unique))
        office_schema.indexes
        ≡ (1, 1 ∷ [], true)
        ∷ (1, 4 ∷ [], true)
        ∷ (4, 1 ∷ 2 ∷ 3 ∷ [], true)
        ∷ (6, 1 ∷ 2 ∷ 3 ∷ 4 ∷ [], true)
        ∷ (8, 1 ∷ [], true)
        ∷ (10, 1 ∷ 2 ∷ [], true)
        ∷ (4, 1 ∷ 2 ∷ 5 ∷ 3 ∷ [], false)
        ∷ (4, 1 ∷ 2 ∷ 4 ∷ [], false)
        ∷ [] }
    ensures by_state { names_at (revisions_table 4) (1 ∷ 2 ∷ 5 ∷ 3 ∷ [])
        ≡ codes "team" ∷ codes "profile" ∷ codes "state" ∷ codes "number" ∷ [] }
    ensures by_author { names_at (revisions_table 4) (1 ∷ 2 ∷ 4 ∷ [])
        ≡ codes "team" ∷ codes "profile" ∷ codes "author" ∷ [] }
{}

/// The number that a file has for each state.
pub fn examples_of_states()
    ensures { map state_number (states.Open ∷ states.Closed ∷ states.Issued
        ∷ states.Replaced ∷ states.Withdrawn ∷ [])
        ≡ 0 ∷ 1 ∷ 2 ∷ 3 ∷ 4 ∷ [] }
{}

/// Each of the six tables stands in the way of a founding, and no other does by its name.
#[tactic(auto, unfolding(sqlite_schema::specs::Names::same_name))]
pub fn examples_of_what_is_founded_already()
    ensures each_table { map (λ t. has_table (alone t))
        (office_table ∷ users_table ∷ revisions_table
        ∷ votes_table ∷ baselines_table ∷ holds_table ∷ [])
        ≡ replicate 6 true }
    ensures empty { has_table no_schema ≡ false }
    ensures other_table { has_table (alone notes_table) ≡ false }
{}

/// An office of schema 1 is old, whatever else is there; one of schema 2 lacks first the table of
/// held profiles, and then an index; a row that isn't read is refused for itself.
#[tactic(auto, unfolding(sqlite_schema::specs::Names::same_name))]
pub fn examples_of_openings()
    ensures old { opening_of (added_by old_schema) (Ok (old_form 5)) ≡ Err opening.OldSchema }
    ensures old_with_all { opening_of (added_by office_schema) (Ok (old_form 5))
        ≡ Err opening.OldSchema }
    ensures without_holds { opening_of (added_by old_schema) (Ok (new_form 5))
        ≡ Err (opening.Store NotAnOffice) }
    ensures without_indexes { opening_of (added_by tables_schema) (Ok (new_form 5))
        ≡ Err opening.NoIndex }
    ensures whole { opening_of (added_by office_schema) (Ok (new_form 5)) ≡ Ok 5 }
    ensures unread { (fault : Fault) → opening_of (added_by office_schema) (Err fault)
        ≡ Err (opening.Store fault) }
    ensures old_row { numbered_row (old_form 5) ≡ Int (pos 1) ∷ Int (pos 1) ∷ Int (pos 5) ∷ [] }
    ensures new_row { numbered_row (new_form 5) ≡ Int (pos 1) ∷ Int (pos 2) ∷ Int (pos 5) ∷ [] }
{}

/// A database of schema 1 with a user, a revision, a vote and a baseline is an office of schema 1;
/// one of schema 2 isn't, nor is one where a profile is held, or other capabilities are listed.
pub fn examples_of_databases_of_schema_1()
    ensures rows { (db : Database) → HasOldRows db → IsOldOffice db old_tables }
    ensures new_schema { (db : Database) (t : Tables) → db.schema ≡ office_schema
        → IsOldOffice db t → ⊥ }
    ensures held { (db : Database) (t : Tables) (p : ProfileName) → t.holds p ≡ true
        → IsOldOffice db t → ⊥ }
    ensures new_row { (db : Database) (t : Tables) → db.trees 0 ≡ office_row 5 ∷ []
        → IsOldOffice db t → ⊥ }
    ensures other_caps { (db : Database) (t : Tables) → db.trees 0 ≡ old_office_row 6 ∷ []
        → t.listed ≡ 5 → IsOldOffice db t → ⊥ }
{}

/// An office is of its form only with its own row in its table, whatever capabilities are listed.
pub fn examples_of_forms<S: Alter>()
    ensures row { HasOfficeRow (office_row 5 ∷ []) 5 }
    ensures none_listed { HasOfficeRow (office_row 0 ∷ []) 0 }
    ensures no_row { (old new : Held S) (listed : ℕ) → HasNow S.Store old office_schema []
        → HasForm (state S.Store old) (state S.Store new) listed → ⊥ }
    ensures other_caps { (old new : Held S) → HasNow S.Store old office_schema (office_row 6 ∷ [])
        → HasForm (state S.Store old) (state S.Store new) 5 → ⊥ }
    ensures old_row { (old new : Held S) (listed : ℕ)
        → HasNow S.Store old office_schema (old_office_row listed ∷ [])
        → HasForm (state S.Store old) (state S.Store new) listed → ⊥ }
    ensures less_a_table { (old new : Held S) (listed : ℕ) (rows : List Row)
        → HasNow S.Store old old_schema rows
        → HasForm (state S.Store old) (state S.Store new) listed → ⊥ }
    ensures less_an_index { (old new : Held S) (listed : ℕ) (rows : List Row)
        → HasNow S.Store old tables_schema rows
        → HasForm (state S.Store old) (state S.Store new) listed → ⊥ }
{}

/// An office of schema 1 is refused as such, or by a failure; never for an index, or as none.
pub fn examples_of_old_offices()
    ensures old { IsOldOrFailure opening.OldSchema }
    ensures failure { IsOldOrFailure (opening.Store Full) }
    ensures no_index { ¬ IsOldOrFailure opening.NoIndex }
    ensures foreign { ¬ IsOldOrFailure (opening.Store NotAnOffice) }
{}

/// The word of each fault; that of the store is its own.
pub fn examples_of_words()
    ensures founding { map founding_fault_word (founding.AlreadyFounded ∷ founding.Store Full ∷ [])
        ≡ codes "already-founded" ∷ codes "full" ∷ [] }
    ensures opening { map opening_fault_word
        (opening.OldSchema ∷ opening.NoIndex ∷ opening.Store NotAnOffice ∷ [])
        ≡ codes "old-schema" ∷ codes "no-index" ∷ codes "not-an-office" ∷ [] }
    ensures migration { map migration_fault_word
        (migration.AlreadyMigrated ∷ migration.Store NotAnOffice ∷ [])
        ≡ codes "already-migrated" ∷ codes "not-an-office" ∷ [] }
{}
