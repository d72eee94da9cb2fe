//! Laws of requests. Each is a function without a parameter whose contract is the law; it does
//! nothing.

ghost use Rattle.std.specs.Prelude.{◌≡◌, ◌↔◌, ℕ, List, Some, IfSome, true, false, codes};
ghost use Rattle.json_requests.specs.Kinds.{Kind, kind_of, kind_word};
ghost use Rattle.json_requests.specs.Members.{approves};

/// A vote approves by the word `approve` and rejects by the word `reject`, and no other text is a
/// vote.
pub fn a_vote_is_one_of_two_words()
    ensures approves { (text : List ℕ) → (approves text ≡ Some true) ↔ (text ≡ codes "approve") }
    ensures rejects { (text : List ℕ) → (approves text ≡ Some false) ↔ (text ≡ codes "reject") }
{}

/// The kind of a text has that text as its word, and each kind is that of its word.
pub fn each_kind_is_found_by_its_word()
    ensures found { (text : List ℕ) → IfSome (kind_of text) (λ kind. kind_word kind ≡ text) }
    ensures known { (kind : Kind) → kind_of (kind_word kind) ≡ Some kind }
{}
