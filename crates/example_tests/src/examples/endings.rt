//! What is taken of a client that may still be sending.

ghost use Rattle.std.specs.Prelude.{◌≡◌, true, false, Ok, Err};
ghost use Rattle.std.specs.IoError.{error_kind};
ghost use Rattle.std.specs.declared.io.Error.{Error};
ghost use Rattle.std.specs.declared.io.ErrorKind.TheVariants.{InvalidInput, TimedOut};
ghost use Rattle.desk_http.specs.Endings.{HasTaken, TakesIf};
ghost use Rattle.example_tests.specs.EdgeExamples.{at_five, gives_one, just, moment, never_set};
ghost use Rattle.example_tests.specs.EdgeExamples.{said, shows_either, unsaid, waits, waits_for};

/// All that still comes is taken, by 10,000 calls of read at most and within a second, for which no
/// call waits longer. Nothing is where the clock fails, can't count a second on, or it can't be said
/// that the response has ended.
pub fn examples_of_what_is_taken()
    ensures all { HasTaken waits gives_one at_five said 3 0 }
    ensures most { HasTaken waits gives_one at_five said 20000 10000 }
    ensures timed_out { (e : Error) → error_kind e ≡ TimedOut
        → HasTaken waits gives_one (shows_either (moment 5 0) (moment 6 0)) said 3 2 }
    ensures no_clock { (e : Error) → HasTaken waits gives_one (just (Err e)) said 3 3 }
    ensures last_second { (e : Error) → error_kind e ≡ InvalidInput
        → HasTaken waits gives_one (just (Ok (moment 18446744073709551615 0))) said 3 3 }
    ensures unsaid { (e : Error) → HasTaken waits gives_one at_five (unsaid e) 3 3 }
    ensures too_few { HasTaken waits gives_one (shows_either (moment 5 0) (moment 5 999999999))
        said 3 2 → ⊥ }
    ensures too_many { HasTaken waits gives_one at_five said 20000 9999 → ⊥ }
    ensures countable { HasTaken waits gives_one at_five said 3 3 → ⊥ }
    ensures not_asked { HasTaken waits gives_one (λ shown. ⊥) said 3 3 → ⊥ }
    ensures waiting_longer { HasTaken (waits_for (moment 2 0)) gives_one at_five said 3 2 → ⊥ }
    ensures waiting_unset { (e : Error) → HasTaken (never_set e) gives_one at_five said 3 2 → ⊥ }
    ensures without_clock { (e : Error) → HasTaken waits gives_one (just (Err e)) said 3 2 → ⊥ }
    ensures while_unsaid { (e : Error) → HasTaken waits gives_one at_five (unsaid e) 3 0 → ⊥ }
{}

/// More is taken of a stream just where bytes of the request may still come.
pub fn examples_of_unread_requests()
    ensures unread { TakesIf waits gives_one at_five said true 3 0 }
    ensures read { TakesIf waits gives_one at_five said false 3 3 }
    ensures too_few { TakesIf waits gives_one at_five said true 3 2 → ⊥ }
    ensures too_many { TakesIf waits gives_one at_five said false 3 0 → ⊥ }
{}
