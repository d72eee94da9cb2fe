//! The lines of a stream, reported one after the other, and readers and writers that fail midway.

#[cfg(test)]
mod counted;
#[cfg(test)]
mod tests;
pub(crate) mod told;
