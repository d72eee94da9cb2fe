//! Offices over two files of which one stops: before each of its calls, over whole conversations; and the same with a journal as the
//! third file.
#![tactic(auto)]

#[cfg(test)]
mod conversations;
#[cfg(test)]
mod exchanges;
#[cfg(test)]
mod foundings;
#[cfg(test)]
mod journals;
#[cfg(test)]
mod migrations;
#[cfg(test)]
mod seen;
