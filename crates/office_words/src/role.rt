//! Roles, and sets of them.

ghost use Rattle.std.specs.Prelude.{◌≡◌, ◌<◌, ◌^◌, Some, None, IfSome, if◌then◌else◌, nat_lt};
ghost use Rattle.std.specs.Int.RustNames.{bit_or};
ghost use Rattle.office_words.specs.Role.{has_role, place_of};
ghost use Rattle.office_words.specs.WordTables.{all_roles, role_word, role_of};
ghost use Rattle.office_words.specs.declared.role.Role.{Role};
ghost use Rattle.office_words.specs.declared.role.TheConstants.Role as roles;

use std::marker::Model;

/// What a user may do in the office.
#[derive(Clone, Copy)]
pub enum Role {
    /// Enrols users.
    Registrar,
    /// Hands in profiles of the own team.
    Author,
    /// Votes on revisions.
    Reviewer,
    /// Adopts baselines, holds profiles, withdraws revisions. A reviewer who is also this gives the
    /// approval with security that a wider profile needs.
    Security,
    /// Issues approved revisions.
    Issuer,
    /// Fetches what was issued for the own team.
    Machine,
}

// The role of this word, by a comparison with each.
fn role_named(text: &str) -> Option<Role>
    ensures { result ≡ role_of text.now }
{
    match text {
        "registrar" => Some(Role::Registrar),
        "author" => Some(Role::Author),
        "reviewer" => Some(Role::Reviewer),
        "security" => Some(Role::Security),
        "issuer" => Some(Role::Issuer),
        "machine" => Some(Role::Machine),
        _ => None,
    }
}

impl Role {
    /// Every role, by its bit.
    pub const ALL: [Role; 6] = [
        Role::Registrar,
        Role::Author,
        Role::Reviewer,
        Role::Security,
        Role::Issuer,
        Role::Machine,
    ];

    /// Its word, as requests name it.
    pub fn word(self) -> &'static str
        ensures { result.now ≡ role_word self }
    {
        match self {
            Role::Registrar => "registrar",
            Role::Author => "author",
            Role::Reviewer => "reviewer",
            Role::Security => "security",
            Role::Issuer => "issuer",
            Role::Machine => "machine",
        }
    }

    /// The role of this word; `None` where it is no role's.
    pub fn from_word(text: &str) -> Option<Role>
        ensures value { result ≡ role_of text.now }
        ensures found { IfSome result (λ role. role_word role ≡ text.now) }
        ensures known { (role : Role) → role_word role ≡ text.now → result ≡ Some role }
    {
        role_named(text)
    }
}

/// The law of the list of roles: it has each, by its bit.
pub fn each_role_is_listed()
    ensures { roles.ALL ≡ all_roles }
{}

/// A set of roles.
#[derive(Clone, Copy, PartialEq)]
pub struct Roles {
    bits: u8,
}

impl Model for Roles {
    ghost use Rattle.std.specs.Prelude.{◌<◌, ℕ};

    ghost Value = { ℕ };

    ghost view = { λ r. r.bits };

    ghost invariant = { λ r. r.bits < 64 };

    ghost inverse = { λ n. record { bits = n } };
}

impl Roles {
    /// No role.
    pub fn empty() -> Roles
        ensures { result ≡ 0 }
    {
        Roles { bits: 0 }
    }

    /// The roles whose bits are set, where none is above the last role's.
    pub fn from_bits(bits: u8) -> Option<Roles>
        ensures { result ≡ (if nat_lt bits 64 then Some bits else None) }
    {
        if bits < 64 {
            Some(Roles { bits })
        } else {
            None
        }
    }

    /// The number whose bit is set at the place of each role.
    pub fn bits(self) -> u8
        ensures value { result ≡ self }
        ensures small { result < 64 }
    {
        self.bits
    }

    /// Whether the role is in the set.
    pub fn has(self, role: Role) -> bool
        ensures { result ≡ has_role self role }
    {
        (self.bits >> place_of(role)) & 1 == 1
    }

    /// The set with the role in it.
    pub fn with(self, role: Role) -> Roles
        ensures { result ≡ bit_or self (2 ^ place_of role) }
    {
        Roles {
            bits: self.bits | mask_of(role),
        }
    }
}

// The place of a role's bit.
fn place_of(role: Role) -> u8
    ensures place { result ≡ place_of role }
    ensures small { result < 6 }
{
    match role {
        Role::Registrar => 0,
        Role::Author => 1,
        Role::Reviewer => 2,
        Role::Security => 3,
        Role::Issuer => 4,
        Role::Machine => 5,
    }
}

// The number whose one bit is the role's.
fn mask_of(role: Role) -> u8
    ensures mask { result ≡ 2 ^ place_of role }
    ensures small { result < 64 }
{
    match role {
        Role::Registrar => 1,
        Role::Author => 2,
        Role::Reviewer => 4,
        Role::Security => 8,
        Role::Issuer => 16,
        Role::Machine => 32,
    }
}
