//! The calls of a store as lines, and what they answer as text.

ghost use Rattle.sqlite.specs.Held.{state};
ghost use Rattle.office_store.specs.Shown.{IsIdle};

use cap_sets::Caps;
use no_memory::NoMemory;
use office_founding::{FoundingFault, check_office, found, listed, migrate};
use office_store::{
    Adopted, Ballot, add_revision, authors, baseline, delete_hold, has_revision, is_author,
    is_held, issued, last, put_baseline, put_hold, put_user, put_vote, revision, revisions_of,
    set_issued, set_withdrawn, standing, tally, user_by_name, user_by_token,
};
use office_words::{
    Fault, ListedRevision, ProfileName, RevisionRow, Roles, State, Tally, Text, UserRow, VoteRow,
    Word, WordFault,
};
use sqlite::{Alter, Connection};
use std::alloc::{AllocError, Global};
use std::fmt::{Debug, Display};

// What a call is about. What its line leaves out is `-`, or 0.
#[derive(Drop)]
struct Subject {
    profile: ProfileName,
    name: Word,
    // the number of a revision, or the bits of roles
    number: u32,
    // the byte that a digest has alone
    byte: u8,
    ballot: Ballot,
}

fn ballot_of(word: &str) -> Ballot {
    let (approves, security) = match word {
        "approve-security" => (true, true),
        "approve" => (true, false),
        _ => (false, false),
    };
    Ballot { approves, security }
}

// The words of a line after that of the call: a team, a profile, a name, a number, and a byte or a vote.
fn subject_of(alloc: Global, line: &str) -> Result<Subject, WordFault> {
    let mut words = line.split(' ').skip(1);
    let team = Word::new(alloc, words.next().unwrap_or("-"))?;
    let profile = Word::new(alloc, words.next().unwrap_or("-"))?;
    let name = Word::new(alloc, words.next().unwrap_or("-"))?;
    let number = words.next().unwrap_or("0").parse::<u32>().unwrap_or(0);
    let more = words.next().unwrap_or("0");
    Ok(Subject {
        profile: ProfileName { team, profile },
        name,
        number,
        byte: more.parse::<u8>().unwrap_or(0),
        ballot: ballot_of(more),
    })
}

// The roles of these bits.
fn roles(bits: u32) -> Roles {
    match u8::try_from(bits) {
        Ok(bits) => Roles::from_bits(bits).unwrap_or(Roles::empty()),
        Err(_) => Roles::empty(),
    }
}

// Founds an office whose first user is root of the team ops, with the one listed capability CAP_SYS_ADMIN.
fn found_office<S: Alter>(alloc: Global, conn: &mut Connection<S>) -> Result<(), FoundingFault>
    requires { IsIdle (state S.Store conn.old) }
    ensures { IsIdle (state S.Store conn.new) }
{
    let (Ok(name), Ok(team)) = (Word::new(alloc, "root"), Word::new(alloc, "ops")) else {
        return Err(FoundingFault::Store(Fault::NoMemory(NoMemory::told())));
    };
    let listed = Caps::from_name("CAP_SYS_ADMIN").unwrap_or(Caps::empty());
    found(conn, &name, &team, &[1; 32], listed)
}

fn put<S: Alter>(conn: &mut Connection<S>, subject: &Subject) -> Result<(), Fault>
    requires { IsIdle (state S.Store conn.old) }
    ensures { IsIdle (state S.Store conn.new) }
{
    let user = UserRow {
        name: subject.name.clone()?,
        team: subject.profile.team.clone()?,
        roles: roles(subject.number),
        digest: [subject.byte; 32],
    };
    put_user(conn, &user)
}

// Adds a revision after the last one, whose body is `{}` and whose digest has the byte 7 alone, and answers its number.
fn add<S: Alter>(alloc: Global, conn: &mut Connection<S>, subject: &Subject) -> Result<u32, Fault>
    requires { IsIdle (state S.Store conn.old) }
    ensures { IsIdle (state S.Store conn.new) }
{
    let number = match last(alloc, conn, &subject.profile)? {
        Some(row) => row.number.saturating_add(1),
        None => 1,
    };
    let revision = RevisionRow {
        number,
        author: subject.name.clone()?,
        state: State::Open,
        body: Text::new(String::from_str(alloc, "{}")?),
        digest: [7; 32],
    };
    add_revision(conn, &subject.profile, &revision)?;
    Ok(number)
}

fn bits<F>(answer: Result<Caps, F>) -> Result<u64, F> {
    answer.map(|listed| listed.bits())
}

fn no_call(alloc: Global) -> Result<String, AllocError> {
    String::from_str(alloc, "no call")
}

fn fault_text<F: Display + Drop>(alloc: Global, fault: F) -> Result<String, AllocError> {
    format!(in alloc; "Err({fault})")
}

fn text<T: Debug + Drop, F: Display + Drop>(
    alloc: Global,
    answer: Result<T, F>,
) -> Result<String, AllocError> {
    match answer {
        Ok(value) => format!(in alloc; "Ok({value:?})"),
        Err(fault) => fault_text(alloc, fault),
    }
}

// The byte that a digest has alone, or 0.
fn byte_of(digest: &[u8; 32]) -> u8 {
    let byte = digest[0];
    if *digest == [byte; 32] { byte } else { 0 }
}

// The name, the team, the roles and the byte of the digest of a user.
fn user_text(alloc: Global, answer: Result<Option<UserRow>, Fault>) -> Result<String, AllocError> {
    match answer {
        Ok(Some(user)) => {
            let (name, team, roles) = (user.name.as_str(), user.team.as_str(), user.roles.bits());
            format!(in alloc; "{name} {team} {roles} {}", byte_of(&user.digest))
        }
        Ok(None) => String::from_str(alloc, "Ok(None)"),
        Err(fault) => fault_text(alloc, fault),
    }
}

// The number, the author, the state, the body and the byte of the digest of a revision.
fn revision_text(
    alloc: Global,
    answer: Result<Option<RevisionRow>, Fault>,
) -> Result<String, AllocError> {
    match answer {
        Ok(Some(revision)) => {
            let (author, body) = (revision.author.as_str(), revision.body.as_str());
            let (number, state) = (revision.number, revision.state.word());
            format!(in alloc;
                "{number} {author} {state} {body} {}",
                byte_of(&revision.digest)
            )
        }
        Ok(None) => String::from_str(alloc, "Ok(None)"),
        Err(fault) => fault_text(alloc, fault),
    }
}

// The names of authors.
fn authors_text(alloc: Global, answer: Result<Vec<Word>, Fault>) -> Result<String, AllocError> {
    let names = match answer {
        Ok(names) => names,
        Err(fault) => return fault_text(alloc, fault),
    };
    let mut text = String::from_str(alloc, "authors")?;
    for name in names.as_slice() {
        write!(text, " {}", name.as_str())?;
    }
    Ok(text)
}

// The profile, the number and the state of each revision.
fn revisions_text(
    alloc: Global,
    answer: Result<Vec<ListedRevision>, Fault>,
) -> Result<String, AllocError> {
    let rows = match answer {
        Ok(rows) => rows,
        Err(fault) => return fault_text(alloc, fault),
    };
    let mut text = String::from_str(alloc, "revisions")?;
    for row in rows.as_slice() {
        let (profile, state) = (row.profile.as_str(), row.state.word());
        write!(text, " {profile}/{}/{state}", row.number)?;
    }
    Ok(text)
}

// The voter of each vote, whether it approves, whether with security, and whether it counts.
fn votes_text(alloc: Global, answer: Result<Vec<VoteRow>, Fault>) -> Result<String, AllocError> {
    let votes = match answer {
        Ok(votes) => votes,
        Err(fault) => return fault_text(alloc, fault),
    };
    let mut text = String::from_str(alloc, "votes")?;
    for vote in votes.as_slice() {
        let (approve, security, counts) = (vote.approve, vote.security, vote.counts);
        write!(
            text,
            " {}/{approve}/{security}/{counts}",
            vote.voter.as_str()
        )?;
    }
    Ok(text)
}

// How many approve, how many of these with security, and how many reject.
fn tally_text(alloc: Global, answer: Result<Tally, Fault>) -> Result<String, AllocError> {
    match answer {
        Ok(tally) => {
            let (approvals, secure) = (tally.approvals, tally.secure);
            format!(in alloc; "tally {approvals} {secure} {}", tally.rejections)
        }
        Err(fault) => fault_text(alloc, fault),
    }
}

// The profile and the number of a baseline.
fn baseline_text(
    alloc: Global,
    answer: Result<Option<Adopted>, Fault>,
) -> Result<String, AllocError> {
    match answer {
        Ok(Some(adopted)) => {
            format!(in alloc; "baseline {} {}", adopted.profile.as_str(), adopted.number)
        }
        Ok(None) => String::from_str(alloc, "Ok(None)"),
        Err(fault) => fault_text(alloc, fault),
    }
}

// What a call about the office itself answers.
fn office_answer<S: Alter>(
    alloc: Global,
    conn: &mut Connection<S>,
    call: &str,
) -> Result<String, AllocError>
    requires { IsIdle (state S.Store conn.old) }
    ensures { IsIdle (state S.Store conn.new) }
{
    match call {
        "found" => text(alloc, found_office(alloc, conn)),
        "check_office" => text(alloc, bits(check_office(conn))),
        "migrate" => text(alloc, migrate(conn)),
        "listed" => text(alloc, bits(listed(conn))),
        _ => no_call(alloc),
    }
}

// What a call about a user answers.
fn user_answer<S: Alter>(
    alloc: Global,
    conn: &mut Connection<S>,
    call: &str,
    subject: &Subject,
) -> Result<String, AllocError>
    requires { IsIdle (state S.Store conn.old) }
    ensures { IsIdle (state S.Store conn.new) }
{
    match call {
        "put_user" => text(alloc, put(conn, subject)),
        "user_by_name" => user_text(alloc, user_by_name(alloc, conn, &subject.name)),
        "user_by_token" => user_text(alloc, user_by_token(alloc, conn, &[subject.byte; 32])),
        _ => no_call(alloc),
    }
}

// What a call that reads a revision answers.
fn revision_answer<S: Alter>(
    alloc: Global,
    conn: &mut Connection<S>,
    call: &str,
    subject: &Subject,
) -> Result<String, AllocError>
    requires { IsIdle (state S.Store conn.old) }
    ensures { IsIdle (state S.Store conn.new) }
{
    let profile = &subject.profile;
    match call {
        "has_revision" => text(alloc, has_revision(conn, profile)),
        "revision" => revision_text(alloc, revision(alloc, conn, profile, subject.number)),
        "last" => revision_text(alloc, last(alloc, conn, profile)),
        "issued" => revision_text(alloc, issued(alloc, conn, profile)),
        _ => no_call(alloc),
    }
}

// What a call that lists, or looks for an author answers.
fn list_answer<S: Alter>(
    alloc: Global,
    conn: &mut Connection<S>,
    call: &str,
    subject: &Subject,
) -> Result<String, AllocError>
    requires { IsIdle (state S.Store conn.old) }
    ensures { IsIdle (state S.Store conn.new) }
{
    let profile = &subject.profile;
    match call {
        "is_author" => text(alloc, is_author(conn, profile, &subject.name)),
        "authors" => authors_text(alloc, authors(alloc, conn, profile)),
        "revisions_of" => revisions_text(alloc, revisions_of(alloc, conn, &profile.team)),
        _ => no_call(alloc),
    }
}

// What a call that writes a revision or its state answers.
fn state_answer<S: Alter>(
    alloc: Global,
    conn: &mut Connection<S>,
    call: &str,
    subject: &Subject,
) -> Result<String, AllocError>
    requires { IsIdle (state S.Store conn.old) }
    ensures { IsIdle (state S.Store conn.new) }
{
    let profile = &subject.profile;
    match call {
        "add_revision" => text(alloc, add(alloc, conn, subject)),
        "set_issued" => text(alloc, set_issued(conn, profile, subject.number)),
        "set_withdrawn" => text(alloc, set_withdrawn(conn, profile, subject.number)),
        _ => no_call(alloc),
    }
}

fn vote<S: Alter>(conn: &mut Connection<S>, subject: &Subject) -> Result<(), Fault>
    requires { IsIdle (state S.Store conn.old) }
    ensures { IsIdle (state S.Store conn.new) }
{
    put_vote(
        conn,
        &subject.profile,
        subject.number,
        &subject.name,
        subject.ballot,
    )
}

// What a call about votes answers.
fn vote_answer<S: Alter>(
    alloc: Global,
    conn: &mut Connection<S>,
    call: &str,
    subject: &Subject,
) -> Result<String, AllocError>
    requires { IsIdle (state S.Store conn.old) }
    ensures { IsIdle (state S.Store conn.new) }
{
    let (profile, number) = (&subject.profile, subject.number);
    match call {
        "put_vote" => text(alloc, vote(conn, subject)),
        "standing" => votes_text(alloc, standing(alloc, conn, profile, number)),
        "tally" => tally_text(alloc, tally(alloc, conn, profile, number)),
        _ => no_call(alloc),
    }
}

// What a call about a baseline or a hold answers.
fn profile_answer<S: Alter>(
    alloc: Global,
    conn: &mut Connection<S>,
    call: &str,
    subject: &Subject,
) -> Result<String, AllocError>
    requires { IsIdle (state S.Store conn.old) }
    ensures { IsIdle (state S.Store conn.new) }
{
    let profile = &subject.profile;
    match call {
        "baseline" => baseline_text(alloc, baseline(alloc, conn, &profile.team)),
        "put_baseline" => text(alloc, put_baseline(conn, profile, subject.number)),
        "held" => text(alloc, is_held(conn, profile)),
        "put_hold" => text(alloc, put_hold(conn, profile)),
        "delete_hold" => text(alloc, delete_hold(conn, profile)),
        _ => no_call(alloc),
    }
}

// What a call is about.
#[derive(Clone, Copy)]
enum Topic {
    Office,
    User,
    Revision,
    List,
    State,
    Vote,
    Profile,
}

fn topic_of(call: &str) -> Topic {
    match call {
        "put_user" | "user_by_name" | "user_by_token" => Topic::User,
        "has_revision" | "revision" | "last" | "issued" => Topic::Revision,
        "is_author" | "authors" | "revisions_of" => Topic::List,
        "add_revision" | "set_issued" | "set_withdrawn" => Topic::State,
        "put_vote" | "standing" | "tally" => Topic::Vote,
        "baseline" | "put_baseline" | "held" | "put_hold" | "delete_hold" => Topic::Profile,
        _ => Topic::Office,
    }
}

// What a call answers.
fn answer<S: Alter>(
    alloc: Global,
    conn: &mut Connection<S>,
    call: &str,
    subject: &Subject,
) -> Result<String, AllocError>
    requires { IsIdle (state S.Store conn.old) }
    ensures { IsIdle (state S.Store conn.new) }
{
    match topic_of(call) {
        Topic::Office => office_answer(alloc, conn, call),
        Topic::User => user_answer(alloc, conn, call, subject),
        Topic::Revision => revision_answer(alloc, conn, call, subject),
        Topic::List => list_answer(alloc, conn, call, subject),
        Topic::State => state_answer(alloc, conn, call, subject),
        Topic::Vote => vote_answer(alloc, conn, call, subject),
        Topic::Profile => profile_answer(alloc, conn, call, subject),
    }
}

/// Makes the call of a line, and gives what it answers as text.
pub(crate) fn told<S: Alter>(
    alloc: Global,
    conn: &mut Connection<S>,
    line: &str,
) -> Result<String, WordFault>
    requires { IsIdle (state S.Store conn.old) }
    ensures { IsIdle (state S.Store conn.new) }
{
    let subject = subject_of(alloc, line)?;
    let call = line.split(' ').next().unwrap_or("-");
    Ok(answer(alloc, conn, call, &subject)?)
}
