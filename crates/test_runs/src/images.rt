//! What a crash leaves of the files.

use crate::calls::board_of;
use crate::fault::RowFault;
use crate::words::{content_of, pick_of};
use ls_memboard::{FailureList, Pick};
use std::alloc::Global;

/// A pick, what was done, a letter each, and a file: what it holds behind a crash, and how many files
/// are touched then.
pub fn left(alloc: Global, args: &[&str]) -> Result<String, RowFault> {
    match args {
        [pick, letters, name] => image(alloc, pick_of(*pick)?, letters.as_bytes(), name.as_bytes()),
        _ => Err(RowFault::Form),
    }
}

fn image(alloc: Global, pick: Pick, letters: &[u8], name: &[u8]) -> Result<String, RowFault> {
    let board = board_of(alloc, FailureList::new(alloc), letters)?;
    let image = board.cut(board.moment(), pick)?;
    let file = content_of(alloc, image.files.content(name))?;
    let touched = image.touched.len();
    Ok(format!(in alloc; "{file} {touched}")?)
}
