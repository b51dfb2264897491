// Messages between boards (ISO/IEC 14576, 4.2.2, message transfer; document 02, T-01): a message is cut into operations of at most 256 bytes, and
// a receiver puts them together again in a lent store of 4,096 bytes. What both take and answer is declared and defined in `message_rules`.
#![tactic(auto)]

mod operation;
mod receiver;
mod sender;

pub use operation::Operation;
pub use receiver::receive;
pub use sender::{divide, part_at, sequence_at};
