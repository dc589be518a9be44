// Why a file is performed no further.
use items::Malformed;
use reader::Unread;
use records::refusal::Refusal;
use std::alloc::AllocError;
use table::Full;
use thiserror::Error;

#[derive(Clone, Copy, Debug, Error)]
pub(crate) enum Stop {
    #[error("no memory")]
    NoMemory(#[from] AllocError),
    #[error("{0}")]
    Malformed(#[from] Malformed),
    /// A table has no place for what the line adds.
    #[error("a table is full")]
    Full,
}

impl From<Unread> for Stop {
    fn from(why: Unread) -> Stop {
        match why {
            Unread::NoMemory(error) => Stop::NoMemory(error),
            Unread::Malformed(malformed) => Stop::Malformed(malformed),
        }
    }
}

impl From<Full> for Stop {
    fn from(_full: Full) -> Stop {
        Stop::Full
    }
}

impl From<Refusal> for Stop {
    fn from(_refusal: Refusal) -> Stop {
        Stop::Full
    }
}
