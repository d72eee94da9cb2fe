//! When a filter allows no more than another.

ghost use Rattle.std.specs.Prelude.{Some, None};
ghost use Rattle.seccomp_doc.specs.declared.action.Action.TheVariants.{KillProcess};
ghost use Rattle.seccomp_doc.specs.Meaning.{only_default};
ghost use Rattle.widening.specs.Permits.{AllowsNoMore};
ghost use Rattle.example_tests.specs.Examples.{allowing};

/// A filter allows more where one call is allowed, with some arguments, that the other refuses.
pub fn examples_of_what_allows_no_more()
    ensures same { AllowsNoMore (Some (allowing 1)) (Some (allowing 1)) }
    ensures stricter { AllowsNoMore (Some (allowing 1)) (Some (only_default KillProcess)) }
    ensures than_none { AllowsNoMore None (Some (allowing 1)) }
    ensures other_argument { AllowsNoMore (Some (allowing 1)) (Some (allowing 2)) → ⊥ }
    ensures one_more { AllowsNoMore (Some (only_default KillProcess)) (Some (allowing 1)) → ⊥ }
    ensures no_filter { AllowsNoMore (Some (allowing 1)) None → ⊥ }
{}
