//! Traces as texts: what a run leaves a record of, one line an item.
//!
//! Call `write_trace` to put the text of a list of items behind what a buffer holds, and `read_trace` to get the items
//! of a text, with the version that its first line tells. `write_item` puts the line of one item there, for a text that
//! is made piece by piece. The text is the function `text_in` of `specs/TraceText`; what is written is that of version
//! 2, and it is of items that can be held, so that it is read back. The reader takes exactly the texts of both
//! versions; of any other it tells the first line that is not of the form of its place (`specs/Reading`). The laws say
//! that no two lists of items have one text, and that each text is that of a list of items or breaks at one line, and not
//! both.
#![tactic(auto)]

mod fault;
pub mod laws;
mod line;
mod reader;
mod sheet;
mod version;
mod writer;

pub use fault::TraceFault;
pub use reader::read_trace;
pub use version::Version;
pub use writer::{write_item, write_trace};
