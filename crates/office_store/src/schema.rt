//! The tables and indexes as SQL has them.

/// The office itself: one row, with the number of the schema and a bit for each listed capability.
pub const CREATE_OFFICE: &str =
    "CREATE TABLE office (key INTEGER NOT NULL PRIMARY KEY, schema INTEGER NOT NULL, listed INTEGER NOT NULL) STRICT";

/// The enrolled users; `token` is SHA-256 of what a user shows.
pub const CREATE_USERS: &str =
    "CREATE TABLE users (name TEXT NOT NULL PRIMARY KEY, team TEXT NOT NULL, roles INTEGER NOT NULL, token BLOB NOT NULL UNIQUE) STRICT";

/// The revisions of each profile, with their canonical text and its SHA-256.
pub const CREATE_REVISIONS: &str =
    "CREATE TABLE revisions (team TEXT NOT NULL, profile TEXT NOT NULL, number INTEGER NOT NULL, author TEXT NOT NULL, state INTEGER NOT NULL, body TEXT NOT NULL, digest BLOB NOT NULL, PRIMARY KEY (team, profile, number)) STRICT";

/// The last vote of each user on each revision.
pub const CREATE_VOTES: &str =
    "CREATE TABLE votes (team TEXT NOT NULL, profile TEXT NOT NULL, number INTEGER NOT NULL, voter TEXT NOT NULL, approve INTEGER NOT NULL, security INTEGER NOT NULL, PRIMARY KEY (team, profile, number, voter)) STRICT";

/// The revision that each team last adopted.
pub const CREATE_BASELINES: &str =
    "CREATE TABLE baselines (team TEXT NOT NULL PRIMARY KEY, profile TEXT NOT NULL, number INTEGER NOT NULL) STRICT";

/// The profiles that are held.
pub const CREATE_HOLDS: &str =
    "CREATE TABLE holds (team TEXT NOT NULL, profile TEXT NOT NULL, PRIMARY KEY (team, profile)) STRICT";

/// Finds the open and the issued revision of a profile. It has all that a list of a team's
/// revisions shows, so that no body is read.
pub const CREATE_BY_STATE: &str =
    "CREATE INDEX revisions_by_state ON revisions (team, profile, state, number)";

/// Finds the authors of a profile.
pub const CREATE_BY_AUTHOR: &str =
    "CREATE INDEX revisions_by_author ON revisions (team, profile, author)";
