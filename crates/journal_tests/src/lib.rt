//! Sealed logs, where no command shows what is tried.
#![tactic(auto)]

#[cfg(test)]
mod faults;
#[cfg(test)]
mod sealed;
#[cfg(test)]
mod sealed_lines;
