//! The tables over `sqlite`, tried by the public calls of the store: over memory, over a file that is closed and opened again, and with
//! memory refused. Beside them a database in memory of many rows.
#![tactic(auto)]

#[cfg(test)]
mod call;
#[cfg(test)]
mod files;
#[cfg(test)]
mod memory;
#[cfg(test)]
mod pages;
#[cfg(test)]
mod stores;
#[cfg(test)]
mod transcript;
