//! What holds of marks. The functions are laws, and do nothing.

ghost use Rattle.std.specs.Prelude.{ℕ};
ghost use Rattle.sqlite_trees.specs.Tree.{Trees};
ghost use Rattle.sqlite_trees.specs.Objects.{with_version};
ghost use Rattle.sqlite_schema.specs.declared.schema.Schema.{Schema};
ghost use Rattle.sqlite_catalog.specs.Listing.{IsSound};

/// A mark changes none of the trees that a schema speaks of: what lists and obeys a schema does so
/// with any mark.
pub fn a_marked_database_is_one()
    ensures { (schema : Schema) (db : Trees) (mark : ℕ)
        → IsSound schema db → IsSound schema (with_version db mark) }
{}
