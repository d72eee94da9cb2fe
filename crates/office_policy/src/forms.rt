//! What the types of requests and of foundings say of the forms of their parts, and what those of
//! these parts say. Nothing is done here but to read them.

ghost use Rattle.std.specs.Prelude.{◌≡◌, ◌<◌, ◌^◌, IsUtf8, true};
ghost use Rattle.office_words.specs.Words.{is_token};
ghost use Rattle.office_policy.specs.Formed.{IsWord, IsRoles, IsName, IsDigest, HasForms};

use cap_sets::Caps;
use office_words::{ProfileName, Roles, Text, Word};
use review_policy::{Ask, Request};

/// A word is of its form.
pub fn word_form(word: &Word)
    ensures { IsWord word.now }
{
    let _text = word.as_str();
}

/// The words of a profile's name are of their form.
pub fn name_form(name: &ProfileName)
    ensures { IsName name.now }
{
    word_form(&name.team);
    word_form(&name.profile);
}

/// A text is UTF-8.
pub fn text_form(text: &Text)
    ensures { IsUtf8 text.now }
{
    let _text = text.as_str();
}

/// A set of roles has the six at most.
pub fn roles_form(roles: Roles)
    ensures { IsRoles roles }
{
    let _bits = roles.bits();
}

/// A set of capabilities has the 41 at most.
pub fn caps_form(caps: Caps)
    ensures { caps < 2 ^ 41 }
{
    let _bits = caps.bits();
}

/// A digest has 32 bytes.
pub fn digest_form(digest: &[u8; 32])
    ensures { IsDigest digest.now }
{
    let _bytes = digest.as_slice();
}

/// What is asked for has the forms.
pub fn ask_forms(ask: &Ask)
    ensures { HasForms ask.now }
{
    match ask {
        Ask::Enrol {
            user,
            team,
            roles,
            digest,
        } => {
            word_form(user);
            word_form(team);
            roles_form(*roles);
            digest_form(digest);
        }
        Ask::Vote { name, digest, .. } => {
            name_form(name);
            digest_form(digest);
        }
        Ask::List { team } => word_form(team),
        Ask::Submit { name, .. }
        | Ask::ActOnRevision { name, .. }
        | Ask::SeeRevision { name, .. }
        | Ask::ActOnProfile { name, .. }
        | Ask::SeeProfile { name, .. }
        | Ask::Revisions { name, .. } => name_form(name),
        Ask::Me => {}
    }
}

/// A request has the forms.
pub fn request_forms(request: &Request)
    ensures token { is_token request.now.token ≡ true }
    ensures ask { HasForms request.now.ask }
{
    let _text = request.token.as_str();
    ask_forms(&request.ask);
}

/// A founding has the forms.
pub fn founding_forms(name: &Word, team: &Word, digest: &[u8; 32], listed: Caps)
    ensures name { IsWord name.now }
    ensures team { IsWord team.now }
    ensures digest { IsDigest digest.now }
    ensures listed { listed < 2 ^ 41 }
{
    word_form(name);
    word_form(team);
    digest_form(digest);
    caps_form(listed);
}
