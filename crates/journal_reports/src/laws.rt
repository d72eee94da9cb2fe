//! What holds of lines as people read them, apart from any call.

ghost use Rattle.std.specs.Prelude.{◌≡◌, ◌∷◌, ◌++◌, ℕ, List, [], Some, None, true, false, codes, length};
ghost use Rattle.review_policy.specs.declared.act.ProfileAct.TheVariants.{Hold, Release};
ghost use Rattle.office_policy.specs.History.{Event, adopted, enrolled, founded, issued};
ghost use Rattle.office_policy.specs.History.{voted, withdrawn, on_profile};
ghost use Rattle.journal_reports.specs.Examples.{adoption_json, digest, each, enrolment};
ghost use Rattle.journal_reports.specs.Examples.{enrolment_json, founding, founding_json};
ghost use Rattle.journal_reports.specs.Examples.{hold_json, issue_json, release_json, row};
ghost use Rattle.journal_reports.specs.Examples.{vote_json, web, withdrawal_json};
ghost use Rattle.journal.specs.Lines.{Line, happened, strike};
ghost use Rattle.journal.specs.Told.{told};
ghost use Rattle.journal_reports.specs.History.{lines_to, shown_of};
ghost use Rattle.journal_reports.specs.Json.{json_of};
ghost use Rattle.journal_reports.specs.Lines.{text_of};
ghost use Rattle.journal_reports.specs.Passing.{Asked, passes};
ghost use Rattle.journal_reports.specs.Struck.{struck_lines};
ghost use Rattle.journal_reports.specs.Whole.{lines_for};

/// A line of each kind but a submission, which needs a digest to be worked out.
pub fn examples_of_lines()
    ensures founding { text_of 1 founding None
        ≡ codes "1  root founded office, listed CAP_SYS_ADMIN\n" }
    ensures nothing_listed { text_of 1 (founded (codes "root") (codes "office") digest 0) None
        ≡ codes "1  root founded office, listed none\n" }
    ensures enrolment { text_of 2 enrolment None
        ≡ codes "2  root enrolled ann of blue: author reviewer (67d596..)\n" }
    ensures approval { text_of 4 (voted (codes "rev") web 1 digest true) (Some row)
        ≡ codes "4  rev approved blue/web 1 (67d596..)\n" }
    ensures rejection { text_of 4 (voted (codes "rev") web 1 digest false) (Some row)
        ≡ codes "4  rev rejected blue/web 1 (67d596..)\n" }
    ensures issue { text_of 15 (issued (codes "iss") web 1) (Some row)
        ≡ codes "15  iss issued blue/web 1 (67d596..)\n" }
    ensures withdrawal { text_of 6 (withdrawn (codes "sue") web 1) (Some row)
        ≡ codes "6  sue withdrew blue/web 1 (67d596..)\n" }
    ensures adoption { text_of 7 (adopted (codes "sue") web 1) (Some row)
        ≡ codes "7  sue adopted blue/web 1 (67d596..)\n" }
    ensures hold { text_of 8 (on_profile (codes "sue") Hold web) None ≡ codes "8  sue held blue/web\n" }
    ensures release { text_of 9 (on_profile (codes "sue") Release web) None
        ≡ codes "9  sue released blue/web\n" }
{}

/// The same as JSON, written out.
pub fn examples_of_json()
    ensures founding { json_of 1 founding None ≡ founding_json }
    ensures enrolment { json_of 2 enrolment None ≡ enrolment_json }
    ensures vote { json_of 4 (voted (codes "rev") web 1 digest false) (Some row) ≡ vote_json }
    ensures issue { json_of 15 (issued (codes "iss") web 1) (Some row) ≡ issue_json }
    ensures withdrawal { json_of 6 (withdrawn (codes "sue") web 1) (Some row) ≡ withdrawal_json }
    ensures adoption { json_of 7 (adopted (codes "sue") web 1) (Some row) ≡ adoption_json }
    ensures hold { json_of 8 (on_profile (codes "sue") Hold web) None ≡ hold_json }
    ensures release { json_of 9 (on_profile (codes "sue") Release web) None ≡ release_json }
{}

/// Which events are shown, and in which form.
pub fn examples_of_what_is_shown()
    ensures each { passes each (1, founding) ≡ true }
    ensures team { passes (record each { team = Some (codes "blue") }) (2, enrolment) ≡ true }
    ensures other_team { passes (record each { team = Some (codes "office") }) (2, enrolment)
        ≡ false }
    ensures profile { passes (record each { profile = Some (codes "web") })
        (8, on_profile (codes "sue") Hold web) ≡ true }
    ensures no_profile { passes (record each { profile = Some (codes "web") }) (2, enrolment)
        ≡ false }
    ensures user { passes (record each { user = Some (codes "root") }) (2, enrolment) ≡ true }
    ensures founder { passes (record each { user = Some (codes "root") }) (1, founding) ≡ true }
    ensures who_is_enrolled { passes (record each { user = Some (codes "ann") }) (2, enrolment)
        ≡ false }
    ensures since { passes (record each { since = 2 }) (2, enrolment) ≡ true }
    ensures before { passes (record each { since = 3 }) (2, enrolment) ≡ false }
    ensures none { shown_of (record each { since = 2 }) [] (1, founding) ≡ [] }
    ensures plain { shown_of each [] (1, founding) ≡ text_of 1 founding None }
    ensures json { shown_of (record each { json = true }) [] (1, founding) ≡ founding_json }
{}

/// Lines for what was struck out, written out.
pub fn examples_of_struck_lines()
    ensures two { struck_lines each 7 2 ≡ codes "8  didn't happen\n9  struck out line 8\n" }
    ensures json { struck_lines (record each { json = true }) 7 2
        ≡ codes "{\"event\":\"struck\",\"line\":8}\n{\"event\":\"strike\",\"line\":9}\n" }
    ensures four { struck_lines (record each { since = 9 }) 7 4
        ≡ codes "9  struck out line 8\n10  didn't happen\n11  struck out line 10\n" }
    ensures none { struck_lines each 7 0 ≡ [] }
    ensures carried_out { struck_lines each 7 1 ≡ [] }
    ensures carried_out_first { struck_lines each 7 3
        ≡ codes "9  didn't happen\n10  struck out line 9\n" }
    ensures team { struck_lines (record each { team = Some (codes "blue") }) 7 2 ≡ [] }
    ensures whole { lines_for (record each { since = 2 }) 1 []
        (happened founding ∷ happened enrolment ∷ strike ∷ happened enrolment ∷ [])
        ≡ codes "2  didn't happen\n3  struck out line 2\n"
        ++ codes "4  root enrolled ann of blue: author reviewer (67d596..)\n" }
{}

/// The lines that are written of a history, by its events that stand, are those for all lines of the
/// journal: each as the event that it tells, and the struck ones said to be struck.
pub fn each_line_of_a_journal_is_told()
    ensures { (asked : Asked) (lines : List Line) (es : List (ℕ × Event))
        → told 0 None lines ≡ Some es
        → lines_to asked es (length lines) ≡ lines_for asked 1 [] lines }
{}
