//! The texts of an answer.

use crate::status::Status;

/// The status, and what is written: the journal and then the result on standard output, and the text on standard error.
#[derive(Drop)]
pub(crate) struct Reply {
    pub(crate) status: Status,
    pub(crate) journal: Vec<u8>,
    pub(crate) result: Vec<u8>,
    pub(crate) err: Vec<u8>,
}
