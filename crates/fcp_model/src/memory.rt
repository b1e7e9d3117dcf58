use thiserror::Error;

/// Memory ran out. No contract says when: each call that allocates may answer so.
#[derive(Clone, Copy, Debug, PartialEq, Eq, Error)]
#[error("out of memory")]
pub struct NoMemory;
