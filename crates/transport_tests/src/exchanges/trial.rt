//! An office in memory, whose exchanges are compared.

use desk_http::{HttpFault, Served, serve_one};
use http_requests::OfficeRouter;
use json_tree::Scratch;
use std::alloc::Global;
use std::io::{Read, Write};
use std::process::Abort;
use std::test::Fail;
use streams::Counted;
use test_doubles::fake_streams::{Sink, Taking};
use test_doubles::messages::{DONE, ENROLMENT};
use test_offices::trial::TrialOffice;

// What came of an exchange.
#[derive(Clone, Copy)]
pub struct Exchange {
    // Its status, where its response was written whole.
    pub served: Result<u16, HttpFault>,
    // Whether it was served, and bytes of its request may still come.
    pub is_unread: bool,
    // How often the reader was called.
    pub calls: u64,
    // How often the reader failed, and the writer.
    pub faults: (u64, u64),
}

// A response with this status was cut, which doesn't say that there was no memory.
pub(crate) fn cut_at(status: u16) -> HttpFault {
    HttpFault::Write {
        status,
        witness: None,
    }
}

#[derive(Drop)]
pub struct Trial {
    pub alloc: Global,
    pub office: TrialOffice,
    router: OfficeRouter,
}

impl Trial {
    // One in which root may enrol users.
    pub(crate) fn new(alloc: Global) -> Result<Trial, Fail> {
        let office = TrialOffice::new(alloc)?;
        let router = OfficeRouter::new(alloc)?;
        Ok(Trial {
            alloc,
            office,
            router,
        })
    }

    // One in which root has enrolled ann.
    pub(crate) fn with_ann(rt: &impl Abort, alloc: Global) -> Result<Trial, Fail> {
        let mut trial = Trial::new(alloc)?;
        trial.assert_served(
            rt,
            ENROLMENT.as_bytes(),
            Taking::All,
            Ok(200),
            DONE.as_bytes(),
        );
        Ok(trial)
    }

    // Serves an exchange.
    pub(crate) fn serve<R: Read + Drop, W: Write>(&mut self, input: R, output: &mut W) -> Exchange {
        let mut reader = Counted::new(input);
        let mut writer = Counted::new(output);
        let served = serve_one(
            &mut self.office,
            self.alloc,
            &self.router,
            &mut Scratch::new(self.alloc),
            &mut reader,
            &mut writer,
        );
        let (served, is_unread) = match served {
            Ok(
                Served {
                    status,
                    is_unread,
                    ..
                },
            ) => (Ok(status), is_unread),
            Err(fault) => (Err(fault), false),
        };
        Exchange {
            served,
            is_unread,
            calls: reader.calls(),
            faults: (reader.faults(), writer.faults()),
        }
    }

    // That an exchange is served so, and that this is written, to a writer that takes its bytes so. Gives how often the
    // reader was called.
    pub(crate) fn assert_served<R: Read + Drop>(
        &mut self,
        rt: &impl Abort,
        input: R,
        taking: Taking,
        served: Result<u16, HttpFault>,
        written: &[u8],
    ) -> u64 {
        let mut output = Sink::new(Vec::new(self.alloc), taking);
        let exchange = self.serve(input, &mut output);
        let faults = match served {
            Err(HttpFault::Read) => (1, 0),
            Err(HttpFault::Write { .. }) => (0, 1),
            _ => (0, 0),
        };
        assert_eq!(rt; exchange.served, served);
        assert_eq!(rt; exchange.faults, faults);
        assert_eq!(rt; output.held.as_slice(), written);
        exchange.calls
    }

    // The tables that it leaves.
    pub(crate) fn tables(self) -> Result<String, Fail> {
        let Trial {
            alloc,
            office,
            router: _,
        } = self;
        office.into_tables(alloc)
    }
}
