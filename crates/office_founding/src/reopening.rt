//! A store is the office that it was when it is opened again. Each function here is a law, and does
//! nothing.

ghost use Rattle.std.specs.Prelude.{◌⊎◌, IsTrue};
ghost use Rattle.sqlite_trees.specs.Tree.{Trees};
ghost use Rattle.sqlite_wal.specs.Recovery.{Image};
ghost use Rattle.sqlite_wal.specs.Files.{outcomes};
ghost use Rattle.sqlite_store.specs.FileStore as files;
ghost use Rattle.sqlite.specs.Closing.{IsCopied};
ghost use Rattle.sqlite.specs.Files.{file_state, image_of, IsOpened};
ghost use Rattle.sqlite.specs.Held.{state};
ghost use Rattle.sqlite.specs.Start.{FindsIn};
ghost use Rattle.sqlite.specs.State.{Opens, IsLive};
ghost use Rattle.office_words.specs.Tables.{Tables};
ghost use Rattle.office_store.specs.Shown.{Shows, AreOffice};
ghost use Rattle.office_founding.specs.Migration.{AreOldOffice, ShowsOld};
ghost use Rattle.office_founding.specs.Reopening.{HoldsOffice, HoldsOldOffice};

use sqlite::{Alter, Connection, FileStore, Files};
use sqlite_disk::Disk;

/// A connection that has opened the trees of an office shows its tables. `Connection::over` ensures
/// the premises of the one that it answers.
pub fn opened_trees_of_an_office_show_it<S: Alter>(opened: &Connection<S>)
    ensures { (t : Tables) → AreOffice (state S.Store opened.now).committed.trees t
        → Opens (state S.Store opened.now) → IsLive (state S.Store opened.now)
        → Shows (state S.Store opened.now) t }
{}

/// A connection that has opened files of an office shows its tables. `Connection::open_from`
/// ensures the premises on it.
pub fn a_store_that_is_opened_again_is_its_office<D: Disk + Drop>(opened: &Connection<FileStore<D>>)
    ensures { (image : Image) (t : Tables) → HoldsOffice image t
        → FindsIn image (file_state opened.now) → IsOpened opened.now
        → Shows (file_state opened.now) t }
{}

/// The files of a store that was closed hold its office, as they read now and after a crash.
/// `Connection::close_files` ensures `IsCopied` of the files that it gives back.
pub fn closed_files_hold_their_office<D: Disk + Drop>(
    closed: &Connection<FileStore<D>>,
    files: &Files<D>,
)
    ensures now { (t : Tables) → Shows (file_state closed.now) t → IsCopied closed.now files.now
        → HoldsOffice (image_of D.Disk files.now) t }
    ensures crash { (t : Tables) → Shows (file_state closed.now) t → IsCopied closed.now files.now
        → (left : Image) → outcomes D.Disk files.now.log files.now.db left → HoldsOffice left t }
{}

/// What a crash leaves of the files of a store that shows an office holds that office; where it may
/// leave the trees of one office or of another, as in a write, it holds one of them.
/// `Connection::into_store` ensures that a store is numbered.
pub fn files_left_by_a_crash_hold_an_office<D: Disk + Drop>(crashed: &Connection<FileStore<D>>)
    ensures shown { IsTrue (files.view crashed.now.store).is_numbered
        → (t : Tables) → Shows (file_state crashed.now) t
        → (left : Image) → (files.state crashed.now.store).may_leave left → HoldsOffice left t }
    ensures written { IsTrue (files.view crashed.now.store).is_numbered → (t u : Tables)
        → ((trees : Trees) → (file_state crashed.now).may_leave trees
        → AreOffice trees t ⊎ AreOffice trees u)
        → (left : Image) → (files.state crashed.now.store).may_leave left
        → ∥ (HoldsOffice left t ⊎ HoldsOffice left u) ∥₁ }
{}

/// A connection that has opened files of an office of schema 1 shows its tables under schema 1.
pub fn an_old_store_that_is_opened_again_is_its_office<D: Disk + Drop>(
    opened: &Connection<FileStore<D>>,
)
    ensures { (image : Image) (t : Tables) → HoldsOldOffice image t
        → FindsIn image (file_state opened.now) → IsOpened opened.now
        → ShowsOld (file_state opened.now) t }
{}

/// What a crash leaves of the files of a store in a migration holds the office under schema 1 or
/// under schema 2. `migrate` ensures the premise on the trees.
pub fn files_left_in_a_migration_hold_the_office<D: Disk + Drop>(crashed: &Connection<FileStore<D>>)
    ensures { IsTrue (files.view crashed.now.store).is_numbered → (t : Tables)
        → ((trees : Trees) → (file_state crashed.now).may_leave trees
        → AreOldOffice trees t ⊎ AreOffice trees t)
        → (left : Image) → (files.state crashed.now.store).may_leave left
        → ∥ (HoldsOldOffice left t ⊎ HoldsOffice left t) ∥₁ }
{}
