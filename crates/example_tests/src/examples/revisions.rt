//! What is told of the revisions of a profile, whose texts differ.

ghost use Rattle.std.specs.Prelude.{◌≡◌, ◌∷◌, [], Some, codes, filter, replicate};
ghost use Rattle.std.specs.Prelude.{true, false};
ghost use Rattle.review_policy.specs.declared.answer.Reply.TheVariants as reply;
ghost use Rattle.office_policy.specs.Examples.{open_row};
ghost use Rattle.office_policy.specs.Newest.{is_before, newest_told};
ghost use Rattle.example_tests.specs.Examples.{told_open};

/// Each revision is told by the digest of its own text; and of those before a number, as of all, 100
/// and whether there are more.
pub fn examples_of_revisions_with_other_texts()
    ensures each_by_its_own { newest_told
        (open_row 2 (codes "new") ∷ open_row 1 (codes "old") ∷ [])
        ≡ reply.Revisions (told_open 2 (codes "new") ∷ told_open 1 (codes "old") ∷ []) false }
    ensures more_before { newest_told (filter (is_before (Some 8))
        (open_row 8 (codes "new") ∷ replicate 101 (open_row 7 (codes "old"))))
        ≡ reply.Revisions (replicate 100 (told_open 7 (codes "old"))) true }
    ensures no_more_before { newest_told (filter (is_before (Some 8))
        (open_row 8 (codes "new") ∷ replicate 100 (open_row 7 (codes "old"))))
        ≡ reply.Revisions (replicate 100 (told_open 7 (codes "old"))) false }
{}
