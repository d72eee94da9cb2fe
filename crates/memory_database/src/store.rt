//! A store that has memory for a disk.

ghost use Rattle.std.specs.Prelude.{◌≡◌, false, Some};
ghost use Rattle.sqlite_trees.specs.View.{is_fault};
ghost use Rattle.memory_database.specs.Errors.{memory_error};
ghost use Rattle.sqlite_trees.specs.declared.error.StoreError.TheVariants.{OutOfMemory};

use crate::want::want_of_memory;
use sqlite_trees::error::StoreError;
use sqlite_trees::schema::Object;
use sqlite_trees::store::{Alter, Direction, Shape, Store};
use sqlite_value::row::Row;
use std::alloc::{AllocError, Global};

/// A store that has memory for a disk: what fails there fails for want of memory, and is told so.
#[derive(Drop)]
pub struct InMemory<S> {
    inner: S,
}

impl<S> InMemory<S> {
    /// The same store, whose disk is memory.
    pub fn new(inner: S) -> InMemory<S>
        ensures { result.inner ≡ inner }
    {
        InMemory { inner }
    }
}

// What an error is told as.
fn memory_error(error: StoreError) -> StoreError
    ensures { result ≡ memory_error error }
{
    match error {
        StoreError::Broken => StoreError::Broken,
        StoreError::Unstorable => StoreError::Unstorable,
        failed => AllocError::from(want_of_memory(failed)).into(),
    }
}

impl<S: Store> Store for InMemory<S> {
    ghost view = { λ it. S.Store.view it.inner };

    ghost faults = { λ it. S.Store.faults it.inner };

    ghost recovers = { λ it. S.Store.recovers it.inner };

    ghost is_shielded = { λ it. S.Store.is_shielded it.inner };

    ghost is_step = { λ old new tree. S.Store.is_step old.inner new.inner tree };

    ghost blamed = { λ _. Some OutOfMemory };

    ghost names = { λ _ _ error. is_fault error ≡ false };

    ghost ordered = { λ it. S.Store.ordered it.inner };

    ghost shut_if_dirty = { λ it. S.Store.shut_if_dirty it.inner };

    ghost empty_if_dirty = { λ it. S.Store.empty_if_dirty it.inner };

    ghost broken_if_shut = { λ it. S.Store.broken_if_shut it.inner };

    ghost settled = { λ it. S.Store.settled it.inner };

    ghost stays = { λ it. S.Store.stays it.inner };

    ghost survives = { λ it. S.Store.survives it.inner };

    ghost unaltered = { λ it. S.Store.unaltered it.inner };

    fn is_broken(&self) -> bool {
        self.inner.is_broken()
    }

    fn shape(&self, tree: u32) -> Shape {
        self.inner.shape(tree)
    }

    fn tree_count(&self) -> u64 {
        self.inner.tree_count()
    }

    fn reals(&self, tree: u32) -> u64 {
        self.inner.reals(tree)
    }

    fn seek(
        &mut self,
        cursor: u16,
        tree: u32,
        key: &Row,
        direction: Direction,
    ) -> Result<(), StoreError> {
        match self.inner.seek(cursor, tree, key, direction) {
            Ok(()) => Ok(()),
            Err(error) => Err(memory_error(error)),
        }
    }

    fn next(&mut self, cursor: u16, row: &mut Row) -> Result<bool, StoreError> {
        match self.inner.next(cursor, row) {
            Ok(found) => Ok(found),
            Err(error) => Err(memory_error(error)),
        }
    }

    fn get(&mut self, table: u32, id: i64, row: &mut Row) -> Result<bool, StoreError> {
        match self.inner.get(table, id, row) {
            Ok(found) => Ok(found),
            Err(error) => Err(memory_error(error)),
        }
    }

    fn put(&mut self, table: u32, row: &Row) -> Result<(), StoreError> {
        match self.inner.put(table, row) {
            Ok(()) => Ok(()),
            Err(error) => Err(memory_error(error)),
        }
    }

    fn delete(&mut self, table: u32, id: i64) -> Result<(), StoreError> {
        match self.inner.delete(table, id) {
            Ok(()) => Ok(()),
            Err(error) => Err(memory_error(error)),
        }
    }

    fn insert(&mut self, index: u32, entry: &Row) -> Result<(), StoreError> {
        match self.inner.insert(index, entry) {
            Ok(()) => Ok(()),
            Err(error) => Err(memory_error(error)),
        }
    }

    fn remove(&mut self, index: u32, entry: &Row) -> Result<(), StoreError> {
        match self.inner.remove(index, entry) {
            Ok(()) => Ok(()),
            Err(error) => Err(memory_error(error)),
        }
    }

    fn commit(&mut self) -> Result<(), StoreError> {
        match self.inner.commit() {
            Ok(()) => Ok(()),
            Err(error) => Err(memory_error(error)),
        }
    }

    fn rollback(&mut self) {
        self.inner.rollback();
    }

    fn savepoint(&mut self) -> Result<(), StoreError> {
        match self.inner.savepoint() {
            Ok(()) => Ok(()),
            Err(error) => Err(memory_error(error)),
        }
    }

    fn release(&mut self) -> Result<(), StoreError> {
        match self.inner.release() {
            Ok(()) => Ok(()),
            Err(error) => Err(memory_error(error)),
        }
    }

    fn rollback_to(&mut self) -> Result<(), StoreError> {
        match self.inner.rollback_to() {
            Ok(()) => Ok(()),
            Err(error) => Err(memory_error(error)),
        }
    }
}

impl<S: Alter> Alter for InMemory<S> {
    ghost listed = { λ it. S.Alter.listed it.inner };

    fn objects(&self, alloc: Global) -> Result<Vec<Row>, AllocError> {
        self.inner.objects(alloc)
    }

    fn create(&mut self, tree: u32, object: &Object<'_>) -> Result<(), StoreError> {
        match self.inner.create(tree, object) {
            Ok(()) => Ok(()),
            Err(error) => Err(memory_error(error)),
        }
    }

    fn destroy(&mut self, tree: u32) -> Result<(), StoreError> {
        match self.inner.destroy(tree) {
            Ok(()) => Ok(()),
            Err(error) => Err(memory_error(error)),
        }
    }

    fn relist(&mut self, changes: &[(u32, Object<'_>)]) -> Result<(), StoreError> {
        match self.inner.relist(changes) {
            Ok(()) => Ok(()),
            Err(error) => Err(memory_error(error)),
        }
    }

    fn version(&self) -> u32 {
        self.inner.version()
    }

    fn set_version(&mut self, version: u32) -> Result<(), StoreError> {
        match self.inner.set_version(version) {
            Ok(()) => Ok(()),
            Err(error) => Err(memory_error(error)),
        }
    }
}
