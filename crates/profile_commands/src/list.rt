//! Lists of capabilities as a command line writes them.

ghost use Rattle.std.specs.Prelude.{◌≡◌, map, option_copied, option_map};
ghost use Rattle.std.specs.List.{find};
ghost use Rattle.std.specs.Int.RustNames.{bit_or};
ghost use Rattle.cap_sets.specs.Capability.{number_named, single};
ghost use Rattle.profile_commands.specs.Lists.{is_unknown, parts_of, set_listed};

use cap_sets::Caps;

// The set with the capability of this name, where it is one's.
fn with_named(caps: Caps, name: &str) -> Option<Caps>
    ensures { result ≡ option_map (λ number. bit_or caps (single number)) (number_named name.now) }
{
    match Caps::from_name(name) {
        Some(named) => Some(caps.union(named)),
        None => None,
    }
}

/// The set that a LIST writes: names of capabilities joined by commas, each any number of times.
/// None where a part between commas is no such name, so also for the empty text.
pub fn set_listed(list: &str) -> Option<Caps>
    ensures { result ≡ set_listed list.now }
{
    let mut caps = Caps::empty();
    let mut rest = list;
    'names: while let Some((name, others)) = rest.split_once(',') {
        match with_named(caps, name) {
            Some(more) => caps = more,
            None => return None,
        }
        rest = others;
    }
    with_named(caps, rest)
}

// Whether no capability has this name.
fn is_unknown(name: &str) -> bool
    ensures { result ≡ is_unknown name.now }
{
    Caps::from_name(name).is_none()
}

/// The first of these names that no capability has.
pub fn unknown_name<'n>(names: &[&'n str]) -> Option<&'n str>
    ensures { option_copied result ≡ find is_unknown (map (λ name. name.now) names.now) }
{
    names.iter().copied().find(|name| is_unknown(name))
}

/// The first part of a LIST that is the name of no capability.
pub fn unknown_part(list: &str) -> Option<&str>
    ensures { option_copied result ≡ find is_unknown (parts_of list.now) }
{
    list.split(',').find(|part| is_unknown(part))
}
