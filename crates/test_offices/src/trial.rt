//! An office in memory that promises nothing, so that what is tried of it is proved without its store.

use crate::offices::trial_office;
use crate::tables::tables_of;
use office_policy::Handler;
use review_office::Office;
use review_policy::{Answer, Request};
use sqlite::MemStore;
use std::alloc::Global;
use std::test::Fail;

/// An office in memory. It answers as an office does, but its contract says nothing of it: of no history it is said to be its office.
#[derive(Drop)]
pub struct TrialOffice {
    office: Office<MemStore>,
}

impl TrialOffice {
    /// One in which root may enrol users, by the token abc.
    pub fn new(alloc: Global) -> Result<TrialOffice, Fail> {
        Ok(TrialOffice {
            office: trial_office(alloc)?,
        })
    }

    /// Its tables as text.
    pub fn into_tables(self, alloc: Global) -> Result<String, Fail> {
        tables_of(alloc, &mut self.office.into_connection())
    }
}

impl Handler for TrialOffice {
    ghost use Rattle.test_offices.specs.Silent.{silent};

    ghost meaning = { silent };

    fn handle(&mut self, alloc: Global, request: &Request) -> Answer {
        self.office.handle(alloc, request)
    }
}
