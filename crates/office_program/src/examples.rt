//! Worked examples of the definitions, each proved by computing.

ghost use Rattle.std.specs.Prelude.{◌≡◌, codes};
ghost use Rattle.office_program.specs.Lines.{so_far_text};

/// Megabytes are whole ones; of a file that grew as it was read, what was read counts.
pub fn examples_of_lines()
    ensures halfway { so_far_text (record { done = 12_999_999; whole = 25_000_000 })
        ≡ codes "office: read 12 of 25 MB" }
    ensures begun { so_far_text (record { done = 0; whole = 1_999_999 })
        ≡ codes "office: read 0 of 1 MB" }
    ensures grown { so_far_text (record { done = 3_000_000; whole = 2_000_000 })
        ≡ codes "office: read 3 of 3 MB" }
{}
