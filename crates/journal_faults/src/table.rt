//! The tables of an office, by name.

ghost use Rattle.std.specs.Prelude.{◌≡◌};
ghost use Rattle.journal_faults.specs.DifferenceTexts.{table_name};

/// A table of an office.
#[derive(Clone, Copy, Drop)]
pub enum Table {
    Office,
    Users,
    Revisions,
    Votes,
    Baselines,
    Holds,
}

impl Table {
    /// Its name.
    pub fn name(self) -> &'static str
        ensures { result.now ≡ table_name self }
    {
        match self {
            Table::Office => "office",
            Table::Users => "users",
            Table::Revisions => "revisions",
            Table::Votes => "votes",
            Table::Baselines => "baselines",
            Table::Holds => "holds",
        }
    }
}
