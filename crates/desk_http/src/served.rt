//! What an exchange comes to.

use no_memory::NoMemory;

/// An exchange whose response was written whole.
#[derive(Clone, Copy)]
pub struct Served {
    /// The status of the response.
    pub status: u16,
    /// Whether bytes of the request may still come: it was refused before its body was read, or there
    /// was no memory to read it.
    pub is_unread: bool,
    /// The witness, where the response says that there was no memory.
    pub witness: Option<NoMemory>,
}
