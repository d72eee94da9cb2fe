//! The members of a line, each of its form. What isn't of its form is [`LineFault::NotARequest`].

ghost use Rattle.std.specs.Prelude.{◌≡◌, codes, option_and_then, option_map};
ghost use Rattle.serde_json.specs.Find.{as_str};
ghost use Rattle.json_tree.specs.View.{view, items_view};
ghost use Rattle.office_words.specs.WordTables.{role_of};
ghost use Rattle.json_requests.specs.Faults.{Gives};
ghost use Rattle.json_requests.specs.Members.{text_at, word_at, token_at, name_at, revision_at};
ghost use Rattle.json_requests.specs.Members.{digest_at, vote_at, roles_of, roles_at};
ghost use Rattle.json_requests.specs.Members.{before_at, if_revision};

use crate::fault::LineFault;
use json_tree::Tree;
use office_words::{
    MAX_REVISIONS, ProfileName, Role, Roles, Token, Word, WordFault, digest_from_hex,
};
use std::alloc::Global;

/// The text under a name; `None` where there is none.
pub fn text_of<'a>(value: &Tree<'a>, name: &str) -> Option<&'a str>
    ensures { option_map (λ text. text.now) result ≡ text_at name.now (view value.now) }
{
    value.get(name).and_then(Tree::as_str)
}

/// The word under a name.
#[tactic(auto, unfolding(crate::specs::Members::word_at))]
pub fn word_of(alloc: Global, value: &Tree<'_>, name: &str) -> Result<Word, LineFault>
    ensures { Gives (λ word. word) result (word_at name.now (view value.now)) }
{
    match text_of(value, name) {
        None => Err(LineFault::NotARequest),
        Some(text) => match Word::new(alloc, text) {
            Ok(word) => Ok(word),
            Err(WordFault::NotAWord) => Err(LineFault::NotARequest),
            Err(WordFault::NoMemory(witness)) => Err(LineFault::NoMemory(witness)),
        },
    }
}

/// The token that the caller shows.
#[tactic(auto, unfolding(crate::specs::Members::token_at))]
pub fn token_of(alloc: Global, value: &Tree<'_>) -> Result<Token, LineFault>
    ensures { Gives (λ token. token) result (token_at (view value.now)) }
{
    match text_of(value, "token") {
        None => Err(LineFault::NotARequest),
        Some(text) => match Token::new(alloc, text) {
            Ok(token) => Ok(token),
            Err(WordFault::NotAWord) => Err(LineFault::NotARequest),
            Err(WordFault::NoMemory(witness)) => Err(LineFault::NoMemory(witness)),
        },
    }
}

/// The profile that is named.
#[tactic(auto, unfolding(crate::specs::Members::name_at))]
pub fn name_of(alloc: Global, value: &Tree<'_>) -> Result<ProfileName, LineFault>
    ensures { Gives (λ name. name) result (name_at (view value.now)) }
{
    let team = word_of(alloc, value, "team")?;
    let profile = word_of(alloc, value, "profile")?;
    Ok(ProfileName { team, profile })
}

// The number of a revision that a value is.
fn number_of(number: Option<u64>) -> Result<u32, LineFault>
    ensures { Gives (λ number. number) result (option_and_then if_revision number) }
{
    match number {
        None => Err(LineFault::NotARequest),
        Some(number) => {
            if 1 <= number && number <= MAX_REVISIONS as u64 {
                Ok(number as u32)
            } else {
                Err(LineFault::NotARequest)
            }
        }
    }
}

/// The number of a revision, 1 to 9,999.
#[tactic(auto, unfolding(crate::specs::Members::revision_at))]
pub fn revision_of(value: &Tree<'_>) -> Result<u32, LineFault>
    ensures { Gives (λ number. number) result (revision_at (view value.now)) }
{
    number_of(value.get("revision").and_then(Tree::as_u64))
}

/// The number of the revision before which others are asked for, 1 to 9,999; `None` where it is left
/// out.
#[tactic(auto, unfolding(crate::specs::Members::before_at))]
pub fn before_of(value: &Tree<'_>) -> Result<Option<u32>, LineFault>
    ensures { Gives (λ number. number) result (before_at (view value.now)) }
{
    match value.get("before") {
        None => Ok(None),
        Some(number) => {
            let number = number_of(number.as_u64())?;
            Ok(Some(number))
        }
    }
}

/// A digest of 64 lower-case hexadecimal digits.
#[tactic(auto, unfolding(crate::specs::Members::digest_at))]
pub fn digest_of(value: &Tree<'_>) -> Result<[u8; 32], LineFault>
    ensures { Gives (λ digest. digest) result (digest_at (view value.now)) }
{
    match text_of(value, "digest") {
        None => Err(LineFault::NotARequest),
        Some(text) => match digest_from_hex(text) {
            Some(digest) => Ok(digest),
            None => Err(LineFault::NotARequest),
        },
    }
}

/// Whether a vote approves.
#[tactic(auto, unfolding(crate::specs::Members::vote_at))]
pub fn vote_of(value: &Tree<'_>) -> Result<bool, LineFault>
    ensures { Gives (λ approve. approve) result (vote_at (view value.now)) }
{
    match text_of(value, "vote") {
        Some("approve") => Ok(true),
        Some("reject") => Ok(false),
        _ => Err(LineFault::NotARequest),
    }
}

/// The bytes of a document.
pub fn document_of(alloc: Global, value: &Tree<'_>) -> Result<Vec<u8>, LineFault>
    ensures { Gives (λ document. document.items) result
        (text_at (codes "document") (view value.now)) }
{
    match text_of(value, "document") {
        None => Err(LineFault::NotARequest),
        Some(text) => Ok(Vec::from_slice(alloc, text.as_bytes())?),
    }
}

// The role whose word a value is.
fn role_of(value: &Tree<'_>) -> Option<Role>
    ensures { result ≡ option_and_then role_of (as_str (view value.now)) }
{
    value.as_str().and_then(Role::from_word)
}

// The set of the roles whose words are listed.
fn roles_in(values: &[Tree<'_>]) -> Option<Roles>
    ensures { result ≡ roles_of (items_view values.now) }
{
    let mut roles = Roles::empty();
    for value in values {
        match role_of(value) {
            Some(role) => roles = roles.with(role),
            None => return None,
        }
    }
    Some(roles)
}

/// The roles that are listed.
#[tactic(auto, unfolding(crate::specs::Members::roles_at))]
pub fn roles_of(value: &Tree<'_>) -> Result<Roles, LineFault>
    ensures { Gives (λ roles. roles) result (roles_at (view value.now)) }
{
    match value
        .get("roles")
        .and_then(Tree::as_array)
        .and_then(roles_in)
    {
        Some(roles) => Ok(roles),
        None => Err(LineFault::NotARequest),
    }
}
