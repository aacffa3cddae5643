//! Lists of bytes, names of files, rows, and the fields that formats are written from and read by.
#![tactic(auto)]

mod bytes;
mod hex_text;
mod memory;
mod name;
mod put;
mod reader;
mod rows;

pub use bytes::Bytes;
pub use hex_text::{hex_lower, hex_upper};
pub use memory::Memory;
pub use name::{Name, NameFault};
pub use put::{joined, put_be32, put_be64, put_bytes, put_u8};
pub use reader::{Reader, Short};
pub use rows::{IdList, NameList, Rows, RowsBehind, SlotList, UserList};
