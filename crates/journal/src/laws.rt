//! What holds of lines, apart from any call. Each is a function without a parameter whose contract
//! is the law; it does nothing.

ghost use Rattle.std.specs.Prelude.{◌≡◌, ◌≤◌, ◌<◌, ◌^◌, [], ◌∷◌, ◌++◌, ℕ, List, All, length};
ghost use Rattle.std.specs.Prelude.{IfSome, Result, Some, None, ⊤};
ghost use Rattle.review_policy.specs.declared.answer.Answer.{Answer};
ghost use Rattle.review_policy.specs.declared.ask.Request.{Request};
ghost use Rattle.office_words.specs.declared.fault.Fault.{Fault};
ghost use Rattle.sealed_log.specs.Sealed.{longest, sealed_with};
ghost use Rattle.sealed_log.specs.Input.{IsOutside};
ghost use Rattle.sealed_log.specs.declared.unreadable.Unreadable.{Unreadable};
ghost use Rattle.office_policy.specs.History.{Event, History};
ghost use Rattle.office_policy.specs.Lawful.{IsAllowed, IsFounding, IsLawfulHistory};
ghost use Rattle.office_policy.specs.Ran.{HaveRun};
ghost use Rattle.office_policy.specs.TablesOf.{tables_of};
ghost use Rattle.journal.specs.declared.journaled.Journaled.{Journaled};
ghost use Rattle.journal.specs.Examples.{founding, enrolment, submission, vote, issue};
ghost use Rattle.journal.specs.Examples.{withdrawal, adoption, hold, release, founding_text};
ghost use Rattle.journal.specs.Examples.{enrolment_text, submission_text, vote_text};
ghost use Rattle.journal.specs.Examples.{issue_text, withdrawal_text, adoption_text};
ghost use Rattle.journal.specs.Examples.{hold_text, release_text, settlement, strike_text, done_text};
ghost use Rattle.office_policy.specs.EventForms.{HasForms};
ghost use Rattle.journal.specs.Forms.{IsFormed};
ghost use Rattle.journal.specs.Journal.{EndsWithEvent, IsEntry, IsJournalOf, IsSealedJournal};
ghost use Rattle.journal.specs.Journal.{Says, history_in};
ghost use Rattle.journal.specs.Journals.{Grows, IsSettled, is_clean, journaled};
ghost use Rattle.journal.specs.Lines.{Line, done, happened, strike, text_of};
ghost use Rattle.journal.specs.Told.{Begins, Ends, GoesOn, IsJournalTo, Place};
ghost use Rattle.journal.specs.Told.{Stops, Tells, history_told, standing, start, told};
ghost use Rattle.journal.specs.Writers.{ShowsWriters, writers_of};

use crate::journal::Journal;
use office_policy::Judge;

/// A text is that of one line: it says what happened, by whom, and of what.
pub fn a_text_is_of_one_line()
    ensures { (a b : Line) → IsFormed a → IsFormed b → text_of a ≡ text_of b → a ≡ b }
{}

/// A text has no control character, so no line feed: a line feed ends a line, and stands nowhere
/// else.
pub fn no_line_feed_stands_in_a_text()
    ensures { (line : Line) → IsFormed line → All (λ byte. 32 ≤ byte) (text_of line) }
{}

/// The line of what the policy allows, of a founding, and those on the one before, are no longer than a
/// line can be; nor is the first together with the one that goes before it by the same write. So no
/// crash leaves more than that behind a journal.
pub fn what_is_allowed_can_be_written()
    ensures allowed { (h : History) (e : Event) → IsAllowed h e → HasForms e
        → IsEntry (happened e) }
    ensures founding { (e : Event) → IsFounding e → HasForms e → IsEntry (happened e) }
    ensures strike { IsEntry strike }
    ensures done { (n : ℕ) → n < 2 ^ 64 → IsEntry (done n) }
    ensures both { (h : History) (e : Event) (n : ℕ) (prior : List ℕ) → IsAllowed h e
        → HasForms e → n < 2 ^ 64
        → length (sealed_with prior (text_of (done n) ∷ []) (text_of (happened e))) ≤ longest }
{}

/// The line that says that the last event is carried out changes nothing of what a journal says.
pub fn a_done_line_changes_nothing()
    ensures { (bodies : List (List ℕ)) (h : History) → Says bodies h → EndsWithEvent bodies
        → length bodies < 2 ^ 64 → Says (bodies ++ text_of (done (length bodies)) ∷ []) h }
{}

/// The journal of an office only grows. Whatever is asked, and when the last event is settled, one that
/// still goes on begins with all the lines that it had; and what a crash leaves of its file could be left
/// before, or begins with their text.
pub fn a_journal_only_grows<O: Judge, J: Journal>()
    ensures asked { (old new : Journaled O J) (requests : List Request) (answers : List Answer)
        → HaveRun (journaled O.Handler.meaning J.Journal.writing) old new requests answers
        → is_clean O.Handler.meaning J.Journal.writing new
        → Grows O.Handler.meaning J.Journal.writing old new }
    ensures settled { (old new : Journaled O J) (result : Result ⊤ Fault)
        → IsSettled O.Handler.meaning J.Journal.writing old new result
        → is_clean O.Handler.meaning J.Journal.writing new
        → Grows O.Handler.meaning J.Journal.writing old new }
    ensures after { (first next last : Journaled O J)
        → Grows O.Handler.meaning J.Journal.writing first next
        → Grows O.Handler.meaning J.Journal.writing next last
        → Grows O.Handler.meaning J.Journal.writing first last }
{}

/// A text is the journal of one history at most.
pub fn a_journal_has_one_history()
    ensures { (text : List ℕ) (g h : History) → IsJournalOf text g → IsJournalOf text h → g ≡ h }
{}

/// The tables of a lawful history show the newest event that wrote to each of them.
pub fn tables_show_their_writers()
    ensures { (h : History) → IsLawfulHistory h → ShowsWriters (tables_of h) (writers_of h) }
{}

/// What lines say, by computing: the events that the next line doesn't strike out, the newest
/// first; and nothing where a strike follows no event.
pub fn examples_of_histories()
    ensures none { history_in [] ≡ Some [] }
    ensures newest_first { (a b : Event) → history_in (happened a ∷ happened b ∷ [])
        ≡ Some (b ∷ a ∷ []) }
    ensures struck_out { (a b c : Event)
        → history_in (happened a ∷ happened b ∷ strike ∷ happened c ∷ []) ≡ Some (c ∷ a ∷ []) }
    ensures struck_out_at_last { (a b : Event) → history_in (happened a ∷ happened b ∷ strike ∷ [])
        ≡ Some (a ∷ []) }
    ensures nothing_to_strike { history_in (strike ∷ []) ≡ None }
    ensures carried_out { (a b : Event)
        → history_in (happened a ∷ done 1 ∷ happened b ∷ []) ≡ Some (b ∷ a ∷ []) }
    ensures carried_out_at_last { (a b : Event)
        → history_in (happened a ∷ happened b ∷ done 2 ∷ []) ≡ Some (b ∷ a ∷ []) }
    ensures nothing_carried_out { history_in (done 0 ∷ []) ≡ None }
    ensures of_another_number { (a b : Event)
        → history_in (happened a ∷ happened b ∷ done 1 ∷ []) ≡ None }
    ensures carried_out_twice { (a : Event)
        → history_in (happened a ∷ done 1 ∷ done 1 ∷ []) ≡ None }
    ensures carried_out_behind_a_strike { (a : Event)
        → history_in (happened a ∷ strike ∷ done 1 ∷ []) ≡ None }
    ensures struck_out_when_carried_out { (a : Event)
        → history_in (happened a ∷ done 1 ∷ strike ∷ []) ≡ None }
    ensures struck_out_twice { (a b : Event)
        → history_in (happened a ∷ happened b ∷ strike ∷ strike ∷ []) ≡ None }
{}

/// What a journal tells from its first line on is its history, and each journal tells it.
pub fn a_journal_tells_its_history()
    ensures of_lines { (lines : List Line) (es : List (ℕ × Event)) → told 0 None lines ≡ Some es
        → history_in lines ≡ Some (history_told es) }
    ensures told { (text : List ℕ) (es : List (ℕ × Event)) → Tells (start (Some text)) es
        → IsJournalOf text (history_told es) }
    ensures tells { (text : List ℕ) (h : History) → IsJournalOf text h
        → ((es : List (ℕ × Event)) × Tells (start (Some text)) es × (h ≡ history_told es)) }
{}

/// What is told up to a place, with the event that is held back there, is the history of the lines
/// before it, whatever comes behind them.
pub fn the_lines_before_a_place_are_a_journal()
    ensures told { (old new : Place) (first : List (ℕ × Event))
        → GoesOn old new first → Begins old new first }
    ensures history { (text : List ℕ) (p : Place) (es : List (ℕ × Event))
        → Begins (start (Some text)) p es
        → IsJournalTo p text (history_told (es ++ standing p.taken p.held)) }
{}

/// What is told to the end is the history of the whole journal, of which the place has the seal.
pub fn what_is_read_to_the_end_is_the_journal()
    ensures { (text : List ℕ) (here end : Place) (es : List (ℕ × Event))
        → GoesOn (start (Some text)) here es → Ends here end
        → IsSealedJournal text (history_told es) end.seal }
{}

/// Where what is left can be told, no line keeps from it: the input or memory fails, or nothing.
pub fn no_fault_is_in_what_is_told()
    ensures { (p : Place) (after : ℕ) (fault : Unreadable) (es : List (ℕ × Event))
        → Stops p after fault → Tells p es → IfSome p.left (λ _. IsOutside fault) }
{}

/// What lines tell, by computing: each event that stands with the number of its line, from 1.
pub fn examples_of_what_is_told()
    ensures none { told 0 None [] ≡ Some [] }
    ensures oldest_first { (a b : Event) → told 0 None (happened a ∷ happened b ∷ [])
        ≡ Some ((1, a) ∷ (2, b) ∷ []) }
    ensures struck_out { (a b c : Event)
        → told 0 None (happened a ∷ happened b ∷ strike ∷ happened c ∷ [])
        ≡ Some ((1, a) ∷ (4, c) ∷ []) }
    ensures further_on { (a b : Event) → told 7 (Some a) (happened b ∷ [])
        ≡ Some ((7, a) ∷ (8, b) ∷ []) }
    ensures carried_out { (a b : Event) → told 7 (Some a) (done 7 ∷ happened b ∷ [])
        ≡ Some ((7, a) ∷ (9, b) ∷ []) }
    ensures nothing_to_strike { told 0 None (strike ∷ []) ≡ None }
{}

/// A line of each kind.
pub fn examples_of_lines()
    ensures founding { text_of founding ≡ founding_text }
    ensures enrolment { text_of enrolment ≡ enrolment_text }
    ensures submission { text_of submission ≡ submission_text }
    ensures vote { text_of vote ≡ vote_text }
    ensures issue { text_of issue ≡ issue_text }
    ensures withdrawal { text_of withdrawal ≡ withdrawal_text }
    ensures adoption { text_of adoption ≡ adoption_text }
    ensures hold { text_of hold ≡ hold_text }
    ensures release { text_of release ≡ release_text }
    ensures strike { text_of strike ≡ strike_text }
    ensures done { text_of settlement ≡ done_text }
{}
