//! What holds of sealed logs, apart from any call. Each is a function without a parameter whose
//! contract is the law; it does nothing.

ghost use Rattle.std.specs.Prelude.{◌≡◌, ◌∷◌, ◌++◌, ◌⊎◌, [], ℕ, List, All, length};
ghost use Rattle.sealed_log.specs.Sealed.{IsBody, longest, sealed_text, sealed_line};
ghost use Rattle.sealed_log.specs.Sealed.{sealed_with, seal_of};
ghost use Rattle.sealed_log.specs.Told.{HasTail, HasMore, HasNone, HasNoOther, told, told_behind};
ghost use Rattle.sealed_log.specs.Names.{HasClash};

/// A log tells just its bodies.
pub fn a_log_tells_its_bodies()
    ensures { (bodies : List (List ℕ)) → All IsBody bodies → told (sealed_text bodies) ≡ bodies }
{}

/// Whatever a file has, it begins with the lines of what it tells, and each of that can be a body.
pub fn a_file_begins_with_what_it_tells()
    ensures bodies { (file : List ℕ) → All IsBody (told file) }
    ensures begins { (file : List ℕ) → HasTail (sealed_text (told file)) (length file) file }
{}

/// What stands behind sealed lines tells on its own, behind their seal.
pub fn a_tail_tells_behind_the_seal()
    ensures { (bodies : List (List ℕ)) (tail : List ℕ) → All IsBody bodies
        → told (sealed_text bodies ++ tail) ≡ bodies ++ told_behind (seal_of bodies) tail }
{}

/// Where nothing behind the sealed lines is sealed, a file tells just them.
pub fn a_tail_that_isnt_sealed_tells_nothing()
    ensures { (bodies : List (List ℕ)) (most : ℕ) (file : List ℕ) → All IsBody bodies
        → HasTail (sealed_text bodies) most file → HasNone bodies file → told file ≡ bodies }
{}

/// What a crash leaves while a line is put there tells the bodies before it, with this one or
/// without, where no other body is sealed there.
pub fn a_crash_takes_no_more_than_the_line()
    ensures { (bodies : List (List ℕ)) (body file : List ℕ) → All IsBody bodies
        → HasTail (sealed_text bodies) (length (sealed_line (seal_of bodies) body)) file
        → HasNoOther bodies body file
        → (told file ≡ bodies) ⊎ (told file ≡ bodies ++ body ∷ []) }
{}

/// What it leaves while two are put there by one write tells the bodies before them; these and the
/// first; or these and both, where no other body is sealed in the place of one of them.
pub fn a_crash_takes_no_more_than_both_lines()
    ensures { (bodies : List (List ℕ)) (first body file : List ℕ) → All IsBody bodies
        → IsBody first → HasTail (sealed_text bodies)
        (length (sealed_with (seal_of bodies) (first ∷ []) body)) file
        → HasNoOther bodies first file → HasNoOther (bodies ++ first ∷ []) body file
        → (told file ≡ bodies) ⊎ (told file ≡ bodies ++ first ∷ [])
        ⊎ (told file ≡ (bodies ++ first ∷ []) ++ body ∷ []) }
{}

/// What a crash leaves of a log has no more behind what it tells than the longest line.
pub fn a_crash_leaves_no_more_behind()
    ensures { (bodies : List (List ℕ)) (file : List ℕ) → All IsBody bodies
        → HasTail (sealed_text bodies) longest file → HasMore file → ⊥ }
{}

/// Logs with one seal are one log, or SHA-256 has a clash.
pub fn a_seal_names_all()
    ensures { (a b : List (List ℕ)) → seal_of a ≡ seal_of b → (a ≡ b) ⊎ HasClash }
{}
