//! The office over a connection. A request is answered as the policy answers it on the office's
//! history, or by a fault. What is answered as done is the next event of the history, and nothing
//! that is answered otherwise is in it.

ghost use Rattle.std.specs.Prelude.{◌≡◌};

use crate::answer::judgement;
use crate::carry_out::carry_out;
use crate::replay::{Unreplayed, replay};
use crate::shown::shows;
use cap_sets::Caps;
use office_founding::{FoundingFault, OpeningFault, check_office, found};
use office_judging::judge::judge;
use office_judging::sheet_at;
use office_policy::{Allowed, Event, Handler, Judge, Judgement, founding_forms, request_forms};
use office_store::{last, revision};
use office_words::{Fault, ProfileName, RevisionRow, Text, Word};
use review_policy::{Answer, Request};
use sqlite::{Alter, Connection};
use std::alloc::Global;
use std::marker::Model;

/// An office over a connection that has no transaction open and no limit on steps. Contracts see it
/// as that connection.
#[derive(Drop)]
pub struct Office<S: Alter> {
    conn: Connection<S>,
}

impl<S: Alter> Model for Office<S> {
    ghost use Rattle.sqlite.specs.Held.{Held, held_code, state};
    ghost use Rattle.office_store.specs.Shown.{IsIdle};

    ghost Value = { Held S };

    ghost coded = { held_code S.code };

    ghost view = { λ office. office.conn };

    ghost invariant = { λ office. IsIdle (state S.Store office.conn) };
}

impl<S: Alter> Office<S> {
    ghost use Rattle.std.specs.Prelude.{◌≡◌, ◌↔◌, ℕ, false, true, [], ◌∷◌, Err};
    ghost use Rattle.std.specs.Prelude.{IsTrue, IfOk, IfErr, OnOk};
    ghost use Rattle.sqlite.specs.Held.{state};
    ghost use Rattle.sqlite.specs.State.{HasCleanDisk};
    ghost use Rattle.office_founding.specs.Form.{HasForm, IsFailure, IsOldOrFailure, TellsOpening};
    ghost use Rattle.office_founding.specs.Form.{has_old_tables};
    ghost use Rattle.office_founding.specs.Founding.{has_table, IsForeign, first_user};
    ghost use Rattle.office_founding.specs.Founding.{FailsToFound};
    ghost use Rattle.office_founding.specs.Migration.{ShowsOld};
    ghost use Rattle.office_store.specs.Schema.{no_schema};
    ghost use Rattle.office_store.specs.Shown.{IsIdle, Shows, AreOffice, LeavesNoMore, MayLeave};
    ghost use Rattle.office_policy.specs.Happened.{event_meant};
    ghost use Rattle.office_policy.specs.History.{History, founded};
    ghost use Rattle.office_policy.specs.Lawful.{IsLawfulHistory};
    ghost use Rattle.office_policy.specs.TablesOf.{tables_of};
    ghost use Rattle.office_policy.specs.Handled.{Stands, Survives};
    ghost use Rattle.office_words.specs.Tables.{Tables};
    ghost use Rattle.office_policy.specs.Revisions.{last_revision, revision_of};
    ghost use Rattle.office_judging.specs.Sheets.{sheet_at};
    ghost use Rattle.review_office.specs.Looking.{HasLooked, HasLookedBack, TellsWhether};
    ghost use Rattle.review_office.specs.Offices.{IsOffice};
    ghost use Rattle.review_office.specs.Meant.{meaning_over};
    ghost use Rattle.review_office.specs.Opened.{IsOver, IsRefusedFor, IsHandedBack};
    ghost use Rattle.review_office.specs.Replayed.{IsReplayed};

    /// Founds an office in an empty store, with its first user, who is a registrar and shows the
    /// token of this digest, and with the listed capabilities: a document that holds one of them
    /// needs two approvals.
    ///
    /// A crash leaves the store as it was or the founded office, and after `Ok` the founded office.
    ///
    /// # Errors
    ///
    /// `AlreadyFounded` where one of an office's tables is there; `NotAnOffice` where none of them
    /// is and something else is; else the fault of the store. The connection is handed back, with
    /// what it had where it is still open.
    pub fn found(
        conn: Connection<S>,
        name: &Word,
        team: &Word,
        digest: &[u8; 32],
        listed: Caps,
    ) -> Result<Office<S>, (FoundingFault, Connection<S>)>
        requires { IsIdle (state S.Store conn) }
        ensures founded { IfOk result (λ office.
            IsOffice (founded name.now team.now digest.now listed ∷ []) (state S.Store office)) }
        ensures stands { IfOk result (λ office. HasCleanDisk (state S.Store office)
            → Stands (meaning_over S.Store)
            (founded name.now team.now digest.now listed ∷ []) office) }
        ensures empty { OnOk result ((state S.Store conn).now.schema ≡ no_schema) }
        ensures clean { IfOk result (λ office. HasCleanDisk (state S.Store office)
            → HasCleanDisk (state S.Store conn)) }
        ensures cause { IfErr result (λ refusal. HasCleanDisk (state S.Store refusal.1)
            → FailsToFound S.Store (first_user name.now team.now digest.now) listed
            conn refusal.1 refusal.0) }
        ensures already { IfErr result (λ refusal. refusal.0 ≡ FoundingFault.AlreadyFounded
            ↔ IsTrue (has_table (state S.Store conn).now.schema)) }
        ensures foreign { IsRefusedFor S.Store
            (λ why. why ≡ FoundingFault.Store Fault.NotAnOffice
            ↔ IsForeign (state S.Store conn).now.schema) result }
        ensures same { IsHandedBack S.Store conn result }
        ensures idle { IfErr result (λ refusal. IsIdle (state S.Store refusal.1)) }
        ensures crash { IfErr result (λ refusal.
            MayLeave (state S.Store conn) (state S.Store refusal.1)
            (λ trees. AreOffice trees
            (tables_of (founded name.now team.now digest.now listed ∷ [])))) }
    {
        let mut conn = conn;
        founding_forms(name, team, digest, listed);
        match found(&mut conn, name, team, digest, listed) {
            Ok(()) => Ok(Office { conn }),
            Err(fault) => Err((fault, conn)),
        }
    }

    /// The office that a store has: it has the six tables, each with its columns, and the two
    /// indexes, and its office's row has its form.
    ///
    /// # Errors
    ///
    /// `NotAnOffice` where it isn't one; `OldSchema` where it is one of schema 1; `NoIndex` where
    /// it lacks an index; else the fault of the store. The connection is handed back, with what it
    /// had where it is still open.
    pub fn over(conn: Connection<S>) -> Result<Office<S>, (OpeningFault, Connection<S>)>
        requires { IsIdle (state S.Store conn) }
        ensures form { IfOk result (λ office. HasCleanDisk (state S.Store office)
            → (listed : ℕ) × HasForm (state S.Store conn) (state S.Store office) listed) }
        ensures office { (h : History) → IsLawfulHistory h
            → Shows (state S.Store conn) (tables_of h)
            → IfOk result (λ office. IsOffice h (state S.Store office)) }
        ensures over { IfOk result (IsOver S.Store conn) }
        ensures foreign { has_old_tables (state S.Store conn).now.schema ≡ false
            → IfErr result (λ refusal. refusal.0 ≡ OpeningFault.Store Fault.NotAnOffice) }
        ensures told { has_old_tables (state S.Store conn).now.schema ≡ true
            → IfErr result (λ refusal. HasCleanDisk (state S.Store refusal.1)
            → TellsOpening (state S.Store conn) (state S.Store refusal.1) (Err refusal.0)) }
        ensures known { (h : History) → IsLawfulHistory h → Shows (state S.Store conn) (tables_of h)
            → IfErr result (λ refusal. HasCleanDisk (state S.Store refusal.1)
            → IsFailure (state S.Store conn) (state S.Store refusal.1) refusal.0) }
        ensures unopened { (t : Tables) → ShowsOld (state S.Store conn) t
            → IfOk result (λ office. HasCleanDisk (state S.Store office) → ⊥) }
        ensures old { (t : Tables) → ShowsOld (state S.Store conn) t
            → IsRefusedFor S.Store IsOldOrFailure result }
        ensures same { IsHandedBack S.Store conn result }
        ensures idle { IfErr result (λ refusal. IsIdle (state S.Store refusal.1)) }
        ensures opened { IfOk result (λ office.
            LeavesNoMore (state S.Store conn) (state S.Store office)) }
        ensures refused { IfErr result (λ refusal.
            LeavesNoMore (state S.Store conn) (state S.Store refusal.1)) }
    {
        let mut conn = conn;
        match check_office(&mut conn) {
            Ok(_) => Ok(Office { conn }),
            Err(fault) => Err((fault, conn)),
        }
    }

    /// Whether the tables have what an event puts into them. Nothing is changed.
    ///
    /// # Errors
    ///
    /// `NoMemory`; `Disk` or `Full` where the disk failed or refused a call, and `Disk` once that has
    /// shut the office; `NotAnOffice` only where the tables are those of no lawful history.
    pub fn shows(&mut self, alloc: Global, event: &Event) -> Result<bool, Fault>
        ensures { HasLooked (meaning_over S.Store)
            self.old self.new (TellsWhether (event_meant event.now)) result }
    {
        shows(alloc, &mut self.conn, event)
    }

    /// A revision of a profile by its number, where it is there. Nothing is changed.
    ///
    /// # Errors
    ///
    /// Those of [`Office::shows`].
    pub fn revision(
        &mut self,
        alloc: Global,
        name: &ProfileName,
        number: u32,
    ) -> Result<Option<RevisionRow>, Fault>
        ensures { HasLookedBack (meaning_over S.Store)
            self.old self.new (λ h. revision_of h name.now number) result }
    {
        revision(alloc, &mut self.conn, name, number)
    }

    /// The last revision of a profile, where it has one. Nothing is changed.
    ///
    /// # Errors
    ///
    /// Those of [`Office::shows`].
    pub fn last_revision(
        &mut self,
        alloc: Global,
        name: &ProfileName,
    ) -> Result<Option<RevisionRow>, Fault>
        ensures { HasLookedBack (meaning_over S.Store)
            self.old self.new (λ h. last_revision h name.now) result }
    {
        last(alloc, &mut self.conn, name)
    }

    /// The review sheet of a revision, where that is there, as any caller is shown it who may see
    /// it. Nothing is changed.
    ///
    /// # Errors
    ///
    /// Those of [`Office::shows`].
    pub fn sheet(
        &mut self,
        alloc: Global,
        name: &ProfileName,
        number: u32,
    ) -> Result<Option<Text>, Fault>
        ensures { HasLookedBack (meaning_over S.Store)
            self.old self.new (sheet_at name.now number) result }
    {
        sheet_at(alloc, &mut self.conn, name, number)
    }

    /// Has an event happen again, where the policy allows it to the caller that it names: the
    /// office is then of the history with the event, as it is after the request of that caller.
    ///
    /// # Errors
    ///
    /// `Denied` with the first rule that refuses what the event asks; `Founding` of a founding;
    /// `OtherText` of a submission whose text is a document, and not its canonical text; else the
    /// fault. Nothing is changed then; after a fault a crash may leave the office with the event.
    pub fn replay(&mut self, alloc: Global, event: &Event) -> Result<(), Unreplayed>
        ensures survives { Survives (meaning_over S.Store) self.old self.new }
        ensures replayed { IsReplayed (meaning_over S.Store)
            self.old self.new (event_meant event.now) result }
    {
        replay(alloc, &mut self.conn, event)
    }

    /// The connection, as the last call left it.
    pub fn into_connection(self) -> Connection<S>
        ensures connection { result ≡ self }
        ensures idle { IsIdle (state S.Store result) }
    {
        let Office { conn } = self;
        conn
    }
}

impl<S: Alter> Handler for Office<S> {
    ghost use Rattle.review_office.specs.Meant.{meaning_over};

    ghost meaning = { meaning_over S.Store };

    fn handle(&mut self, alloc: Global, request: &Request) -> Answer {
        match self.judge(alloc, request) {
            Judgement::Answered(answer) => answer,
            Judgement::Allowed(allowed) => match self.carry_out(alloc, &allowed) {
                Ok(()) => Answer::Done(allowed.reply),
                Err(fault) => Answer::Fault(fault),
            },
        }
    }
}

impl<S: Alter> Judge for Office<S> {
    fn judge(&mut self, alloc: Global, request: &Request) -> Judgement {
        request_forms(request);
        judgement(judge(alloc, &mut self.conn, request))
    }

    fn carry_out(&mut self, _alloc: Global, allowed: &Allowed) -> Result<(), Fault> {
        carry_out(&mut self.conn, allowed)
    }
}
