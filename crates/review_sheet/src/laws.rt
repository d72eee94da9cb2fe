//! What holds of sheets, apart from any call.

ghost use Rattle.std.specs.Prelude.{◌≡◌, ◌∷◌, ◌++◌, [], codes, decimal, flat_map, length, map};
ghost use Rattle.std.specs.Prelude.{true, false, replicate};
ghost use Rattle.cap_sets.specs.Execve.{IsAfter, IsAfterRoot};
ghost use Rattle.cap_sets.specs.declared.state.CapState.{CapState};
ghost use Rattle.review_policy.specs.Rules.{need_of};
ghost use Rattle.review_sheet.specs.AfterExecve.{after_plain, after_root};
ghost use Rattle.review_sheet.specs.Examples.{bare, bare_lines, detailed, detailed_lines};
ghost use Rattle.review_sheet.specs.Examples.{examples_of_votes};
ghost use Rattle.review_sheet.specs.Facts.{SheetValue};
ghost use Rattle.review_sheet.specs.Laws.{CountsBelow, CountsVotes, HasPart};
ghost use Rattle.review_sheet.specs.Laws.{indented_first, is_indented, says_approve, says_reject};
ghost use Rattle.profile_text.specs.Profile.{holds_listed, listed_in};
ghost use Rattle.review_sheet.specs.Review.{finding_line, need_text};
ghost use Rattle.review_sheet.specs.Sets.{plain_lines, root_lines, set_line};
ghost use Rattle.review_sheet.specs.Sheet.{sheet_lines, sheet_text};
ghost use Rattle.widening.specs.Findings.{findings_of, is_wider};
ghost use Rattle.widening.specs.declared.finding.Finding.TheVariants.{AnyArch};

use cap_sets::File;

/// The sheet of a profile without capabilities and without a filter.
pub fn a_sheet_of_a_profile_without_a_filter()
    ensures { sheet_lines bare ≡ bare_lines }
{}

/// The sheet of a profile with five distinct sets and a filter, against an adopted revision, with
/// votes that count and votes that lapsed; and the one finding that no such sheet has beside these.
pub fn a_sheet_with_each_part()
    ensures sheet { sheet_lines detailed ≡ detailed_lines }
    ensures any_architecture { finding_line AnyArch ≡ codes "  architecture any" }
{}

/// A sheet is its lines, each ended by a line feed.
pub fn each_line_ends_with_a_line_feed()
    ensures { (s : SheetValue) → sheet_text s ≡ flat_map (λ line. line ++ 10 ∷ []) (sheet_lines s) }
{}

/// The findings on a sheet are those of the comparison with the baseline, and its need is the
/// policy's: by whether there is a finding, and whether the document holds a listed capability.
pub fn findings_and_need_are_those_of_the_comparison_and_the_policy()
    ensures findings { (s : SheetValue) → HasPart
        ((codes "findings: " ++ decimal (length (findings_of s.base s.shown)))
        ∷ map finding_line (findings_of s.base s.shown))
        (sheet_lines s) }
    ensures need { (s : SheetValue) → HasPart
        (set_line (codes "listed") (listed_in s.listed s.shown)
        ∷ (codes "need: "
        ++ need_text (need_of (is_wider s.base s.shown) (holds_listed s.listed s.shown))) ∷ [])
        (sheet_lines s) }
{}

/// The number after `findings:` is that of the lines of findings below it, and the number after
/// `votes:` that of the lines of votes.
pub fn numbers_of_lists_are_those_of_their_lines()
    ensures findings { (s : SheetValue) → CountsBelow (codes "findings: ") (sheet_lines s) }
    ensures votes { (s : SheetValue) → CountsBelow (codes "votes: ") (sheet_lines s) }
{}

/// The number after `approvals:` is that of the lines of votes that say `approve` and not `lapsed`,
/// and the number after `rejections:` that of those that say `reject` and not `lapsed`.
pub fn approvals_and_rejections_are_the_votes_that_say_so()
    ensures { (s : SheetValue) → CountsVotes (sheet_lines s) }
{}

/// What the laws of numbers count: a line below is one that begins with two spaces, and a vote that
/// has lapsed says neither `approve` nor `reject`.
pub fn examples_of_what_is_counted()
    ensures below { map is_indented (codes "  a" ∷ codes " a" ∷ codes "a" ∷ [] ∷ [])
        ≡ true ∷ replicate 3 false }
    ensures first { indented_first (codes "  a" ∷ codes "  b" ∷ codes "c" ∷ codes "  d" ∷ [])
        ≡ codes "  a" ∷ codes "  b" ∷ [] }
    ensures approve { map says_approve examples_of_votes
        ≡ true ∷ true ∷ replicate 3 false }
    ensures reject { map says_reject examples_of_votes
        ≡ false ∷ false ∷ true ∷ replicate 2 false }
{}

/// Whatever state is after execve of the document's sets, its lines are those of a sheet: of a
/// plain file, and of a plain file by root.
pub fn lines_after_execve_are_those_of_any_state_after_it()
    ensures plain { (before after : CapState) → IsAfter before File.Plain after
        → plain_lines after ≡ plain_lines (after_plain before).0 }
    ensures root { (before after : CapState) → IsAfterRoot before after
        → root_lines after ≡ root_lines (after_root before).0 }
{}
