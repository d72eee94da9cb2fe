//! Words, texts and sets of roles, as calls have them.

use office_words::{Role, Roles, Text, Token, Word, WordFault};
use std::alloc::{AllocError, Global};
use std::test::Fail;

#[test]
fn words_and_tokens_are_of_their_forms(rt: HostRuntime) -> Result<(), Fail> {
    let alloc = rt.alloc();
    let word = Word::new(alloc, "web-1")?;
    assert_eq!(rt; word.as_str(), "web-1");
    for refused in [
        Word::new(alloc, "").err(),
        Word::new(alloc, "Web").err(),
        Token::new(alloc, "a b").err(),
    ] {
        assert!(rt; matches!(refused, Some(WordFault::NotAWord)));
    }
    Ok(())
}

// Whether words with these texts are the same.
fn are_same(alloc: Global, text: &str, other: &str) -> Result<bool, Fail> {
    let word = Word::new(alloc, text)?;
    let other = Word::new(alloc, other)?;
    Ok(word.is(&other))
}

#[test]
fn words_are_the_same_where_their_texts_are(rt: HostRuntime) -> Result<(), Fail> {
    for (text, wanted) in [
        ("web", true),
        ("we", false),
        ("webs", false),
        ("wed", false),
    ] {
        let same = are_same(rt.alloc(), "web", text)?;
        assert_eq!(rt; same, wanted, "{text}");
    }
    Ok(())
}

// Whether the copy of a word has its text.
fn is_copied(alloc: Global, text: &str) -> Result<bool, Fail> {
    let word = Word::new(alloc, text)?;
    let copy = word.clone()?;
    Ok(copy.as_str() == text)
}

// Whether a text of the same characters is the same text, and an empty one isn't.
fn is_kept(alloc: Global, text: &Text) -> Result<bool, AllocError> {
    let same = Text::new(String::from_str(alloc, text.as_str())?);
    let empty = Text::new(String::new(alloc));
    Ok(same.is(text) && !text.is(&empty))
}

#[test]
fn a_copy_of_a_word_and_a_text_of_the_same_characters_are_the_same(
    rt: HostRuntime,
) -> Result<(), Fail> {
    let text = Text::new(String::from_str(rt.alloc(), "a b\n")?);
    let is_kept = is_kept(rt.alloc(), &text)?;
    let is_copied = is_copied(rt.alloc(), "web-1")?;
    assert_eq!(rt; (text.as_str(), is_kept, is_copied), ("a b\n", true, true));
    Ok(())
}

// Of each role its word, the bit of it alone, and whether it is in the set of author and security,
// in the empty set, and in the first of these once it is put into it.
const ROLES: &str = "\
     registrar 1 false false true\n\
     author 2 true false true\n\
     reviewer 4 false false true\n\
     security 8 true false true\n\
     issuer 16 false false true\n\
     machine 32 false false true\n";

fn push_role(told: &mut String, role: Role) -> Result<(), AllocError> {
    let none = Roles::empty();
    let both = none.with(Role::Author).with(Role::Security);
    let (has, has_none, added) = (both.has(role), none.has(role), both.with(role).has(role));
    let bits = none.with(role).bits();
    writeln!(told, "{} {bits} {has} {has_none} {added}", role.word())
}

fn push_roles(told: &mut String) -> Result<(), AllocError> {
    for role in Role::ALL {
        push_role(told, role)?;
    }
    Ok(())
}

#[test]
fn a_role_is_in_the_sets_that_it_was_put_into(rt: HostRuntime) -> Result<(), AllocError> {
    let mut told = String::new(rt.alloc());
    push_roles(&mut told)?;
    assert_eq!(rt; told.as_str(), ROLES);
    Ok(())
}

#[test]
fn six_bits_are_a_set_of_roles(rt: HostRuntime) {
    let both = Roles::empty().with(Role::Author).with(Role::Security);
    let all = Roles::from_bits(63).map(|roles| roles.bits());
    assert_eq!(rt; all, Some(63));
    assert!(rt; Roles::from_bits(64).is_none());
    assert!(rt; both.with(Role::Author) == both);
}
