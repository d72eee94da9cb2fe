//! Profiles by examples, where no command line shows what is tried: what a filter makes of calls,
//! all implications between comparisons with the least and the greatest words, filters at their
//! limits, and what is out of memory.
#![tactic(auto)]

#[cfg(test)]
mod calls;
#[cfg(test)]
mod implications;
#[cfg(test)]
mod limits;
#[cfg(test)]
mod members;
#[cfg(test)]
mod names;
#[cfg(test)]
mod sets;
#[cfg(test)]
mod told;
#[cfg(test)]
mod wider;
