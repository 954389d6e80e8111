use std::alloc::AllocError;
use std::fmt;
use thiserror::Error;

// There was no memory for the text or the message list.
#[derive(Debug, Drop, Error)]
#[error("no memory for the transcript")]
pub struct OutOfMemory;

// By hand, since a derived one would keep the error as a field.
impl From<AllocError> for OutOfMemory {
    fn from(_error: AllocError) -> OutOfMemory {
        OutOfMemory
    }
}

// A text is written into memory, so it fails for want of memory alone.
impl From<fmt::Error> for OutOfMemory {
    fn from(_error: fmt::Error) -> OutOfMemory {
        OutOfMemory
    }
}
