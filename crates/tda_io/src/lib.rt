//! The outside of the program: what it reads and what it writes.
#![tactic(auto)]

mod dir;
mod header;
mod mem_inbox;
mod mem_outbox;
mod outside;
mod row_reader;
mod rows;
mod texts;

pub use dir::{DirInbox, DirOutbox};
pub use header::has_header;
pub use mem_inbox::{MemFile, MemInbox};
pub use mem_outbox::MemOutbox;
pub use outside::{InFault, Inbox, NoMemory, OutFault, Outbox, PERSONS};
pub use row_reader::RowReader;
pub use rows::{RowFault, Rows, read_rows};
pub use texts::{is_name, push_field, push_int, read_int};
