//! What is taken of moments and of noise.

use crate::answer::Answer;
use crate::words::{half_of, number_of};
use ls_tape::{drawn, later_moments, later_noise, moments_taken, next_moment};
use std::alloc::{AllocError, Global};

/// The next moment, how many are taken, and those after it.
pub fn moments(alloc: Global, to: &mut Answer, args: &[Vec<u8>]) {
    match moments_of(alloc, to, args) {
        Ok(moments) => taken(to, &moments),
        Err(_) => to.lacks_memory(),
    }
}

fn moments_of(alloc: Global, to: &mut Answer, args: &[Vec<u8>]) -> Result<Vec<u64>, AllocError> {
    let mut moments = Vec::new(alloc);
    for moment in args {
        moments.push(number_of(to, moment))?;
    }
    Ok(moments)
}

fn taken(to: &mut Answer, moments: &[u64]) {
    to.number(next_moment(moments));
    to.number(moments_taken(moments) as u64);
    for later in later_moments(moments) {
        to.number(*later);
    }
}

/// So many bytes that are drawn of a noise, and what is left of it.
pub fn noise(alloc: Global, to: &mut Answer, args: &[Vec<u8>]) {
    match args {
        [noise, len] => {
            let len = half_of(to, len) as usize;
            to.bytes(drawn(alloc, noise, len));
            to.digits(later_noise(noise, len));
        }
        _ => to.is_no_row(),
    }
}
