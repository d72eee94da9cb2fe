//! What is said on standard error, and which calls of read are noted.

ghost use Rattle.std.specs.Prelude.{◌≡◌, [], codes, true, false, None, Some, Ok, Err};
ghost use Rattle.std.specs.IoError.{error_kind};
ghost use Rattle.std.specs.declared.io.Error.{Error};
ghost use Rattle.std.specs.declared.io.ErrorKind.TheVariants.{Interrupted, TimedOut};
ghost use Rattle.command_host.specs.FailedCalls.{IsNoted};
ghost use Rattle.command_host.specs.Said.{IsRefusal};
ghost use Rattle.command_host.specs.declared.fault.CommandFault.TheVariants.{Close, Open};
ghost use Rattle.example_tests.specs.EdgeExamples.{written, wrote};
ghost use Rattle.no_memory.specs.Witness.{witness};

/// A call that failed is noted, but not an interrupted one; and a note stands.
pub fn examples_of_noted_calls()
    ensures failed { (e : Error) → error_kind e ≡ TimedOut → IsNoted false true (Err e) }
    ensures interrupted { (e : Error) → error_kind e ≡ Interrupted → IsNoted false false (Err e) }
    ensures read { IsNoted true true (Ok 3) }
    ensures unnoted { (e : Error) → error_kind e ≡ TimedOut → IsNoted false false (Err e) → ⊥ }
    ensures not_failed { (e : Error) → error_kind e ≡ Interrupted
        → IsNoted false true (Err e) → ⊥ }
    ensures forgotten { IsNoted true false (Ok 3) → ⊥ }
{}

/// A refusal is its word, with a path where a file couldn't be read, written whole or in part. Just
/// with the witness want of memory is said in its place.
pub fn examples_of_said_refusals()
    ensures whole { IsRefusal written (wrote [] 0) (wrote (codes "office: disk\n") 0)
        Close None None }
    ensures cut { IsRefusal written (wrote [] 0) (wrote (codes "office: d") 1) Close None None }
    ensures path { IsRefusal written (wrote [] 0) (wrote (codes "office: read a\n") 0)
        Open (Some (codes "a")) None }
    ensures memory { IsRefusal written (wrote [] 0) (wrote (codes "office: memory\n") 0)
        Close None (Some witness) }
    ensures other_word { IsRefusal written (wrote [] 0) (wrote (codes "office: read\n") 0)
        Close None None → ⊥ }
    ensures other_path { IsRefusal written (wrote [] 0) (wrote (codes "office: read b\n") 0)
        Open (Some (codes "a")) None → ⊥ }
    ensures not_cut { IsRefusal written (wrote [] 0) (wrote (codes "office: d") 0)
        Close None None → ⊥ }
    ensures unsaid { IsRefusal written (wrote [] 0) (wrote (codes "office: disk\n") 1)
        Close None None → ⊥ }
    ensures no_witness { IsRefusal written (wrote [] 0) (wrote (codes "office: memory\n") 0)
        Close None None → ⊥ }
    ensures witness { IsRefusal written (wrote [] 0) (wrote (codes "office: disk\n") 0)
        Close None (Some witness) → ⊥ }
{}
