//! Worked examples of the definitions, each proved by computing.

ghost use Rattle.std.specs.Prelude.{◌≡◌, ◌∷◌, [], ◌++◌, codes, replicate, true, false};
ghost use Rattle.database_files.specs.Extents.{begins_database, begins_log, database_extent};
ghost use Rattle.database_files.specs.Extents.{header_text, log_extent, user_version};

/// A header of three pages of 4,096 bytes, and one of a page of 65,536.
pub fn examples_of_headers()
    ensures three { database_extent [] (header_text ++ 16 ∷ 0 ∷ replicate 10 0
        ++ 0 ∷ 0 ∷ 0 ∷ 3 ∷ replicate 68 0) ≡ 16384 }
    ensures one { database_extent [] (header_text ++ 0 ∷ 1 ∷ replicate 10 0
        ++ 0 ∷ 0 ∷ 0 ∷ 1 ∷ replicate 68 0) ≡ 131072 }
    ensures most { database_extent [] (header_text ++ 16 ∷ 0 ∷ replicate 10 0
        ++ 255 ∷ 255 ∷ 255 ∷ 255 ∷ replicate 68 0) ≡ 4_294_967_297 }
    ensures none { database_extent [] (replicate 100 0) ≡ 100 }
    ensures short { begins_database header_text ≡ false }
{}

/// A log of one frame of a page of 512 bytes, which says that there are two pages; and what is none.
#[tactic(auto, unfolding(crate::specs::Extents::most_pages))]
pub fn examples_of_logs()
    ensures log { begins_log (0x37 ∷ 0x7f ∷ 6 ∷ 0x82 ∷ replicate 52 0) ≡ true }
    ensures other { begins_log (replicate 56 0) ≡ false }
    ensures whole { log_extent (0x37 ∷ 0x7f ∷ 6 ∷ 0x83 ∷ replicate 52 0) ≡ 4_294_967_297 }
    ensures nothing { log_extent [] ≡ 100 }
    ensures frame { database_extent (0x37 ∷ 0x7f ∷ 6 ∷ 0x82 ∷ replicate 4 0 ++ 0 ∷ 0 ∷ 2 ∷ 0
        ∷ replicate 20 0 ++ 0 ∷ 0 ∷ 0 ∷ 1 ∷ 0 ∷ 0 ∷ 0 ∷ 2 ∷ replicate 528 0) [] ≡ 1536 }
{}

/// The number stands at byte 60; of what is no database there is none.
pub fn examples_of_versions()
    ensures some { user_version (header_text ++ replicate 44 0 ++ 0 ∷ 0 ∷ 1 ∷ 2 ∷ replicate 36 9)
        ≡ 258 }
    ensures none { user_version (replicate 100 9) ≡ 0 }
{}
