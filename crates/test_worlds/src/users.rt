//! What a vault says of users.

use crate::fault::RowFault;
use crate::words::{byte_of, number_of, word_of};
use ls_arming::{Arming, UserNumbers};
use ls_bytes::Bytes;
use ls_credential::{Credential, Kind};
use ls_secret::Secret;
use ls_vault::{Table, Token, User};
use std::alloc::Global;

/// A user: the number, the version and the text of the secret, the kind and the text of the
/// credential, how many failures, the secure id, whether the length may be shown, whether there may
/// be tokens, and a token or none by its id and its bytes.
pub fn user_of(alloc: Global, args: &[Vec<u8>]) -> Result<User, RowFault> {
    match args {
        [
            number,
            version,
            sp,
            kind,
            text,
            fails,
            secure,
            auto,
            escrow,
            token @ ..,
        ] => {
            let tokens = tokens_of(alloc, token)?;
            let secret = Secret::of(alloc, byte_of(version), sp)?;
            let credential = credential_of(alloc, byte_of(kind), text)?;
            Ok(User {
                number: word_of(number),
                secret,
                credential,
                fails: word_of(fails),
                until: 0,
                secure: number_of(secure),
                escrow: number_of(escrow) == 1,
                auto: number_of(auto) == 1,
                tokens,
            })
        }
        _ => Err(RowFault::Form),
    }
}

fn credential_of(alloc: Global, kind: u8, text: &[u8]) -> Result<Credential, RowFault> {
    match Kind::of_code(kind) {
        Some(kind) => Ok(Credential::parse(alloc, kind, text)?),
        None => Err(RowFault::Form),
    }
}

fn tokens_of(alloc: Global, args: &[Vec<u8>]) -> Result<Table<Token>, RowFault> {
    let mut tokens = Table::new(alloc);
    match args {
        [] => Ok(tokens),
        [id, bytes] => {
            let id = number_of(id);
            let bytes = Bytes::of(alloc, bytes)?;
            tokens.push(Token { id, bytes })?;
            Ok(tokens)
        }
        _ => Err(RowFault::Form),
    }
}

/// The arming of one user at a boot.
pub fn arming_of(alloc: Global, args: &[Vec<u8>]) -> Result<Option<Arming>, RowFault> {
    match args {
        [boot, user] => {
            let users = UserNumbers::of(alloc, &[word_of(user)])?;
            let boot = word_of(boot);
            Ok(Some(Arming { boot, users }))
        }
        _ => Err(RowFault::Form),
    }
}
