//! An empty database in memory.

ghost use Rattle.std.specs.Prelude.{◌≡◌, ◌≢◌, IfErr, IfOk};
ghost use Rattle.sqlite.specs.Held.{IsNew, state};
ghost use Rattle.sqlite.specs.Steps.{IsEmpty};
ghost use Rattle.memory_database.specs.MemoryStore.{HasNoTable, over_memory};

use crate::file::VolatileFile;
use crate::store::InMemory;
use crate::want::want_of_memory;
use sqlite::{Connection, Error, ErrorCode, FileStore, Files};
use sqlite_pager::{Options, Pager};
use sqlite_store::{OpenError, Unopened};
use sqlite_wal::PageSize;
use std::alloc::{AllocError, Global};

/// A store in memory, in pages.
pub type MemoryStore = InMemory<FileStore<VolatileFile>>;

const PAGE_SIZE: usize = 1024;

/// How pages in memory are kept: few in a cache, since the file is memory too, and a short log.
pub(crate) fn options() -> Options {
    let mut options = Options::new(0);
    options.cache_pages = 256;
    options.spill_pages = 256;
    options.checkpoint_frames = 256;
    options
}

// A store without a table, in two new files. What is refused there is refused for want of memory.
fn new_store(alloc: Global) -> Result<MemoryStore, AllocError>
    ensures { IfOk result HasNoTable }
{
    let size = PageSize::new(PAGE_SIZE).unwrap();
    let files = Files {
        log: VolatileFile::new(alloc),
        db: VolatileFile::new(alloc),
    };
    let pager = Pager::new(alloc, files, size, options())?;
    let unopened = Unopened::new(alloc, pager, &[])?;
    match unopened.create() {
        Ok(store) => Ok(InMemory::new(store)),
        Err((OpenError::Refused, _)) => unreachable!(),
        Err((failed, _)) => Err(want_of_memory(failed).into()),
    }
}

// A connection over a store without a table.
fn connect(alloc: Global, store: MemoryStore) -> Result<Connection<MemoryStore>, Error>
    requires { HasNoTable store }
    ensures empty { IfOk result (λ conn. IsEmpty (state over_memory conn)) }
    ensures fresh { IfOk result IsNew }
    ensures memory { IfErr result (λ error. error ≡ Error.SqliteFailure ErrorCode.OutOfMemory) }
{
    match Connection::over(alloc, store) {
        Ok(conn) => Ok(conn),
        Err((error, _)) => Err(error),
    }
}

/// An empty database in memory, in pages of a file that no crash outlasts.
pub fn open_in_memory(alloc: Global) -> Result<Connection<MemoryStore>, AllocError>
    ensures empty { IfOk result (λ conn. IsEmpty (state over_memory conn)) }
    ensures fresh { IfOk result IsNew }
{
    let store = new_store(alloc)?;
    match connect(alloc, store) {
        Ok(conn) => Ok(conn),
        Err(failed) => Err(want_of_memory(failed).into()),
    }
}
