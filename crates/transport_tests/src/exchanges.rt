//! Exchanges over HTTP.

mod deadlines;
mod limits;
mod loopback;
mod memory;
mod queue;
mod stops;
mod trial;
