//! The rules of a request, one after the other.

ghost use Rattle.std.specs.Prelude.{◌≡◌, Ok, IfOk, IsTrue};
ghost use Rattle.sqlite.specs.Held.{state};
ghost use Rattle.sqlite.specs.State.{HasCleanDisk};
ghost use Rattle.office_store.specs.Shown.{IsIdle};
ghost use Rattle.office_judging.specs.Rows.{HasRow, JudgesRow, first_by};

use crate::looked::Looked;
use crate::refusal::Refusal;
use crate::refuses::refuses;
use crate::row::rules_of;
use office_words::UserRow;
use review_policy::{Ask, Denial};
use sqlite::{Alter, Connection};
use std::alloc::Global;

// Asks the rules of a request in order, until one refuses it. What a rule asks is looked up where
// the rules before it have let the request through.
pub(crate) fn let_through<S: Alter>(
    alloc: Global,
    conn: &mut Connection<S>,
    caller: &UserRow,
    ask: &Ask,
) -> Result<Looked, Refusal>
    requires row { HasRow ask.now }
    requires idle { IsIdle (state S.Store conn.old) }
    requires is_open { HasCleanDisk (state S.Store conn.old)
        → IsTrue (state S.Store conn.old).is_open }
    ensures judged { JudgesRow
        (state S.Store conn.old) (state S.Store conn.new) result caller.now ask.now }
    ensures passed { IfOk result (λ looked. first_by caller.now ask.now looked ≡ Ok tt) }
{
    let mut looked = Looked::NOTHING;
    let mut number = 1;
    let rules = rules_of(ask);
    for rule in rules {
        number += 1;
        looked.look(alloc, conn, caller, ask, *rule)?;
        if refuses(caller, ask, &looked, *rule) {
            return Err(Refusal::from(Denial {
                number,
                rule: *rule,
            }));
        }
    }
    Ok(looked)
}
