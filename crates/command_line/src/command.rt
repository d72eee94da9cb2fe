//! What the words of a command line ask for.

/// What the words of a command line ask the program for, with the values as they were written.
#[derive(Drop)]
pub enum Command<'w> {
    /// No word: the trial desk.
    Trial,
    /// `check FILE`: the canonical text of the document in a file.
    Check {
        file: &'w str,
    },
    /// `execve FILE`: what a process with the sets of a document has after execve.
    Execve(ExecveWords<'w>),
    /// `init DB NAME TEAM DIGEST [CAP]... [--journal FILE]`: a new office in a file.
    Init(InitWords<'w>),
    /// `desk DB [--journal FILE | --without-journal]`: the office in a file, over standard input and
    /// output.
    Desk {
        database: &'w str,
        journal: JournalWords<'w>,
    },
    /// `migrate DB [--without-journal]`: the office of schema 1 in a file is made one of schema 2.
    Migrate {
        database: &'w str,
        without_journal: bool,
    },
    /// `serve DB [--port P] (--requests N | --until-stopped) [--journal FILE | --without-journal]`:
    /// the office in a file, over HTTP.
    Serve(ServeWords<'w>),
    /// `compare BASE NEW`: what the document in one file permits more than that in another.
    Compare {
        base: &'w str,
        new: &'w str,
    },
    /// `verify DB JOURNAL [--seal N:HEX] [--mark]`: whether the office in a file is the one that a
    /// journal tells.
    Verify(VerifyWords<'w>),
    /// `rebuild DB JOURNAL`: a new office in a file, of what a journal tells.
    Rebuild {
        database: &'w str,
        journal: &'w str,
    },
    /// `history JOURNAL [--team T] [--profile P] [--user U] [--since N] [--json]`: what a journal
    /// tells, a line an event.
    History(HistoryWords<'w>),
    /// `evidence JOURNAL TEAM PROFILE N [--line L]`: on what a revision was issued, or how its sheet
    /// stood before an event.
    Evidence(EvidenceWords<'w>),
}

/// The values of `execve`.
#[derive(Clone, Copy)]
pub struct ExecveWords<'w> {
    /// FILE, which holds the document.
    pub file: &'w str,
    /// Whether there is `--root`.
    pub root: bool,
    /// The LIST of `--file-permitted`.
    pub file_permitted: Option<&'w str>,
    /// The LIST of `--file-inheritable`.
    pub file_inheritable: Option<&'w str>,
    /// Whether there is `--file-effective`.
    pub file_effective: bool,
}

/// What is said of the journal of an office that goes on.
#[derive(Clone, Copy)]
pub enum JournalWords<'w> {
    /// Nothing: the office has none.
    Unnamed,
    /// `--journal FILE`: the journal in FILE, which goes on.
    Named(&'w str),
    /// `--without-journal`: the office goes on without the one that it has.
    Without,
}

impl<'w> JournalWords<'w> {
    ghost use Rattle.std.specs.Prelude.{◌≡◌, option_copied};
    ghost use Rattle.command_line.specs.Meaning.{journal_named};

    /// The FILE that is named.
    pub fn file(self) -> Option<&'w str>
        ensures { option_copied result ≡ journal_named self.entry }
    {
        match self {
            JournalWords::Named(file) => Some(file),
            _ => None,
        }
    }
}

/// The values of `verify`.
#[derive(Clone, Copy)]
pub struct VerifyWords<'w> {
    /// DB, the file of the office.
    pub database: &'w str,
    /// JOURNAL, its file.
    pub journal: &'w str,
    /// The N:HEX of `--seal`.
    pub seal: Option<KeptSeal>,
    /// Whether there is `--mark`.
    pub mark: bool,
}

/// The seal that a line of a journal had.
#[derive(Clone, Copy)]
pub struct KeptSeal {
    /// N, the number of the line, from 1.
    pub line: u64,
    /// HEX, its 64 lower-case hexadecimal digits.
    pub seal: [u8; 64],
}

/// The values of `history`.
#[derive(Clone, Copy)]
pub struct HistoryWords<'w> {
    /// JOURNAL, its file.
    pub journal: &'w str,
    /// The T of `--team`.
    pub team: Option<&'w str>,
    /// The P of `--profile`.
    pub profile: Option<&'w str>,
    /// The U of `--user`.
    pub user: Option<&'w str>,
    /// The N of `--since`, from 1; 1 is every line.
    pub since: u64,
    /// Whether there is `--json`.
    pub json: bool,
}

/// The values of `evidence`.
#[derive(Clone, Copy)]
pub struct EvidenceWords<'w> {
    /// JOURNAL, its file.
    pub journal: &'w str,
    /// TEAM, of the profile.
    pub team: &'w str,
    /// PROFILE, its name.
    pub profile: &'w str,
    /// N, the number of the revision, from 1 to 9,999.
    pub revision: u32,
    /// The L of `--line`, from 1.
    pub line: Option<u64>,
}

/// How many exchanges `serve` serves.
#[derive(Clone, Copy)]
pub enum Requests {
    /// `--requests N`: N, from 1 to 1,000,000.
    Count(u32),
    /// `--until-stopped`: 2^64 - 1, to which no run comes. What ends it is a signal, or a line that
    /// can't be written.
    UntilStopped,
}

impl Requests {
    ghost use Rattle.std.specs.Prelude.{◌≡◌};
    ghost use Rattle.command_line.specs.Meaning.{exchanges_of};

    /// The number of exchanges.
    pub fn exchanges(self) -> u64
        ensures { result ≡ exchanges_of self }
    {
        match self {
            Requests::Count(count) => count as u64,
            Requests::UntilStopped => u64::MAX,
        }
    }
}

/// The values of `serve`.
#[derive(Clone, Copy)]
pub struct ServeWords<'w> {
    /// DB, the file of the office.
    pub database: &'w str,
    /// P, the port; 0 is any free one.
    pub port: u16,
    /// How many exchanges are served.
    pub requests: Requests,
    /// What is said of the journal.
    pub journal: JournalWords<'w>,
}

/// The values of `init`.
#[derive(Drop)]
pub struct InitWords<'w> {
    /// DB, the file of the office.
    pub database: &'w str,
    /// NAME, of the first user.
    pub name: &'w str,
    /// TEAM, the team of the first user.
    pub team: &'w str,
    /// DIGEST, of the first user's token.
    pub digest: &'w str,
    /// Each CAP, in the order of the words.
    pub capabilities: Vec<&'w str>,
    /// The FILE of `--journal`, which is begun.
    pub journal: Option<&'w str>,
}
