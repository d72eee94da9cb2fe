//! The names by which files of the host were opened.

use crate::file_id::{FileId, id_of};
use database_files::{Name, NamedDisk};
use sqlite::FileFrom;
use std::{fs, io};

/// A file of the host as a disk, which is written to only while its name leads to it.
pub type HostFile<T> = NamedDisk<FileFrom<T>, HostName>;

// A path, and the file to which it led.
#[derive(Drop)]
struct Led {
    path: String,
    file: FileId,
}

// Whether a file has so many bytes, where that is asked.
fn has_len(found: u64, len: Option<usize>) -> bool {
    match len {
        Some(len) => found == len as u64,
        None => true,
    }
}

impl Led {
    fn new(rt: &HostRuntime, path: &str) -> io::Result<Led> {
        let file = id_of(&fs::metadata(rt, path)?);
        let path = String::from_str(rt.alloc(), path)?;
        Ok(Led { path, file })
    }

    // A file to which a path leads has a link, and while it is open no other gets its number.
    fn leads(&self, rt: &HostRuntime, len: Option<usize>) -> bool {
        match fs::metadata(rt, self.path.as_str()) {
            Ok(found) => id_of(&found) == self.file && has_len(found.len(), len),
            Err(_) => false,
        }
    }
}

/// The path by which a file was opened; of a log also that of its database.
#[derive(Drop)]
pub struct HostName {
    rt: HostRuntime,
    own: Led,
    database: Option<Led>,
}

impl HostName {
    /// The path of the file that is there.
    pub(crate) fn new(rt: &HostRuntime, path: &str) -> io::Result<HostName> {
        Ok(HostName {
            rt: *rt,
            own: Led::new(rt, path)?,
            database: None,
        })
    }

    /// That of the log of the database at a path, which is there.
    pub(crate) fn of_log(rt: &HostRuntime, path: &str) -> io::Result<HostName> {
        let log = log_name(rt, path)?;
        Ok(HostName {
            rt: *rt,
            own: Led::new(rt, log.as_str())?,
            database: Some(Led::new(rt, path)?),
        })
    }

    /// Whether it is that of this file.
    pub(crate) fn is_of(&self, file: FileId) -> bool {
        self.own.file == file
    }
}

impl Name for HostName {
    ghost use Rattle.std.specs.Prelude.{⊤};

    ghost leads = { λ _ _ _. ⊤ };

    fn leads_to_file(&self, len: Option<usize>) -> bool {
        if !self.own.leads(&self.rt, len) {
            return false;
        }
        match &self.database {
            Some(database) => database.leads(&self.rt, None),
            None => true,
        }
    }
}

/// The name of the log of a database, which lies beside it, where a link leads too.
pub(crate) fn log_name(rt: &HostRuntime, path: &str) -> io::Result<String> {
    let real = fs::canonicalize(rt, path)?;
    Ok(format!(in rt.alloc(); "{}-wal", real.as_str())?)
}
