//! Texts sealed under a key and a personalisation, and the file of a sealed synthetic password.
#![tactic(auto)]

mod fault;
mod kind;
mod parsing;
mod personal;
mod sp_blob;

pub use fault::BlobFault;
pub use kind::BlobKind;
pub use parsing::a_spelled_blob_has_no_fault;
pub use personal::{
    open_under, opened_under, seal_under, sealed_texts_are_bytes, sealed_texts_open,
};
pub use sp_blob::SpBlob;
