//! Stopped programs, which are walked and changed: of images written by hand, good ones and hostile ones. All numbers of these cases are hexadecimal.
//!
//! - `program`: a stopped program.
//! - `calls`: the calls, and what they answer.

mod calls;
mod program;

use crate::text::pairs_of;
use calls::print_call;
use cmm_image::{Image, read_image};
pub use program::Stopped;
use std::alloc::{AllocError, Global};
use std::io;

/// Takes the program of the image whose bytes these hexadecimal digits write, or none where they are no image.
pub fn take_image(
    alloc: Global,
    stopped: &mut Option<Stopped>,
    digits: &str,
) -> Result<(), AllocError> {
    *stopped = stopped_of(alloc, digits)?;
    Ok(())
}

fn stopped_of(alloc: Global, digits: &str) -> Result<Option<Stopped>, AllocError> {
    let bytes = pairs_of(alloc, digits)?;
    match read_image(alloc, &bytes) {
        Ok(image) => Ok(stopped_at(alloc, image)),
        Err(_) => Ok(None),
    }
}

fn stopped_at(alloc: Global, image: Image) -> Option<Stopped> {
    Stopped::new(alloc, image, 4096).ok()
}

/// Does with a program what a line says, and prints what it answers: nothing where there is no program.
pub fn print_stopped(
    rt: &(impl AllocGlobal + Print),
    stopped: &mut Option<Stopped>,
    call: &str,
) -> io::Result<()> {
    match stopped {
        Some(program) => print_call(rt, program, call),
        None => Ok(()),
    }
}
