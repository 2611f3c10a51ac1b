//! Activations.
ghost use Rattle.std.specs.Prelude.{◌≡◌, ◌<◌, IsTrue};
ghost use Rattle.cmm_abi.specs.Registers.{is_callee_saves};
ghost use Rattle.cmm_walk.specs.Activations.{order_of as order_in, place_of, places_of, register_in};

use crate::place::Place;

/// Where the value is now that a callee-saves register had in an activation.
#[derive(Clone, Copy)]
pub enum Kept {
    /// In the register itself.
    InRegister,
    /// In the 8 bytes from this address on.
    At(u64),
}

/// A suspended activation.
#[derive(Clone, Copy)]
pub struct Activation {
    /// The address of its frame.
    pub frame: u64,
    /// Its site, by its place in the image.
    pub site: u32,
    /// Its procedure, by its place in the image.
    pub proc: u32,
    /// Where its values of the callee-saves registers are: of 9 and of 18 to 27, in this order.
    pub saved: [Kept; 11],
}

impl Activation {
    /// Where its value of a callee-saves register is.
    pub fn kept(&self, register: u8) -> Place
        requires { IsTrue (is_callee_saves register) }
        ensures { place_of result ≡ places_of self.now.saved register }
    {
        match self.saved[order_of(register)] {
            Kept::InRegister => Place::InRegister(register),
            Kept::At(address) => Place::InMemory(address),
        }
    }
}

/// Which callee-saves register one is, in ascending order: 9 comes before 18.
pub(crate) fn order_of(register: u8) -> usize
    requires { IsTrue (is_callee_saves register) }
    ensures order { result ≡ order_in register }
    ensures few { result < 11 }
{
    usize::from(register.saturating_sub(17))
}

/// The callee-saves register of this number among them.
pub fn register_of(k: usize) -> u8
    requires { k < 11 }
    ensures register { result ≡ register_in k }
    ensures saved { IsTrue (is_callee_saves result) }
{
    if k == 0 { 9 } else { 17 + k as u8 }
}
