//! What an error of the system says of a socket.
use std::io::Error;

/// Linux's numbers of errors: errno(3).
const EBADF: i32 = 9;

const ENOMEM: i32 = 12;

const EINVAL: i32 = 22;

const ENFILE: i32 = 23;

const EMFILE: i32 = 24;

const ENOTSOCK: i32 = 88;

const ENOBUFS: i32 = 105;

/// Whether the system is out of memory, buffers or descriptors, so that a connection that ends helps.
pub(crate) fn is_shortage(error: &Error) -> bool {
    matches!(
        error.raw_os_error(),
        Some(ENOMEM | ENFILE | EMFILE | ENOBUFS)
    )
}

/// Whether the descriptor itself is bad, so that no later call succeeds.
pub(crate) fn is_for_good(error: &Error) -> bool {
    matches!(error.raw_os_error(), Some(EBADF | EINVAL | ENOTSOCK))
}
