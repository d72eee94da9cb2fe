//! Whether files changed while they were read.

ghost use Rattle.std.specs.Prelude.{◌↔◌, ◌≡◌};
ghost use Rattle.reading_commands.specs.Moments.{IsMoment, WasNoted};

use crate::place::Place;
use command_host::{PassFiles, Stamp, say};
use std::io::Write;
use streams::Counted;

/// How the files of an office and of a journal are at a moment; nothing of one that isn't there, or
/// isn't regular. It can't be copied: two are of two looks.
#[derive(Drop, PartialEq)]
pub struct Moment {
    database: Option<Stamp>,
    log: Option<Stamp>,
    journal: Option<Stamp>,
}

/// How they are now.
pub(crate) fn moment_of<F: PassFiles>(files: &F, place: &Place, journal: &str) -> Moment
    ensures { IsMoment (F.stamps files.now) place.now journal.now result }
{
    Moment {
        database: files.stamp_of(place.database.as_str()),
        log: files.stamp_of(place.log.as_str()),
        journal: files.stamp_of(journal),
    }
}

/// Says on standard error that they changed, where they did between two moments.
pub(crate) fn note_change<E: Write>(before: Moment, after: Moment, errors: &mut Counted<E>)
    ensures { WasNoted E.contents errors.old errors.new before after }
{
    if before != after {
        say(errors, "office: a file changed while it was read\n");
    }
}
