//! The code by which frames come and go, by which a run ends, and by which the client is called.
//!
//! Each function appends code to an assembler, and its contract says what that changes of a machine state (`specs/Frames`, `specs/Values`,
//! `specs/Calls`), how many instructions it adds, how many are executed at most, and, where it has one, that the first asks for nothing but
//! input. A frame is any that `lay_frame` of cmm_allocate gives, of less than 2 MiB; an offset in it may be past what an instruction reaches.
//! Between two pieces registers 5 to 7 have nothing; within one, an address may wait in register 7 while values go out.
//! An error of a function that appends code is want of memory, and then a part of the code may be there, unless its comment says otherwise.
//!
//! - `saved`: the registers that a procedure saves are saved, and restored.
//! - `place`: places are made 0.
//! - `room`: whether the stack has room for a frame, and how register 2 moves.
//! - `entry`: a procedure is entered, and its frame is made.
//! - `exit`: a frame is left, and control goes back.
//! - `taking`: values that control brings come to places.
//! - `copying`: values that control brings come to places and to global registers.
//! - `giving`: values go out to where they travel.
//! - `moving`: numbers go from registers to registers, all at once.
//! - `calling`: control goes to another procedure, or is cut to a continuation.
//! - `asking`: the end of the run is requested, or the client is called.
#![tactic(auto)]

mod asking;
mod calling;
mod copying;
mod entry;
mod exit;
mod giving;
mod moving;
mod place;
mod room;
mod saved;
mod taking;

pub use asking::{ask_client, ask_end, ask_limit};
pub use calling::{call, call_by, cut, jump_by, lay_exits};
pub use copying::copy_in;
pub use entry::{begin, enter};
pub use exit::{jump, leave, leave_by, return_values};
pub use giving::give;
pub use place::zero_all;
pub use saved::{restore_all, save_all};
pub use taking::take;
