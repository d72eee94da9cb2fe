//! What no transcript shows of lines, lists of requests and exchanges over HTTP, tried by the public calls over an office in memory:
//! streams that come in pieces, stop or fail, memory that is refused, deadlines, clients that wait, and sockets over loopback. What
//! requests are answered stands in `tests/transcripts`.
#![tactic(auto)]

#[cfg(test)]
mod exchanges;
#[cfg(test)]
mod lines;
