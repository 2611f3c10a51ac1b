//! The registers and pc.
ghost use Rattle.std.specs.Prelude.{◌≡◌, ◌<◌, slice_index};

/// The register that has the top of the stack where a run begins, and then the address of the youngest frame: the stack pointer.
pub const FRAME: u8 = 2;

/// The register that has the address of the region of argument area, global registers and stack.
pub const REGION: u8 = 4;

/// The 32 registers and the program counter.
#[derive(Clone, Copy)]
pub struct Regs {
    /// The registers' values by number. Register 0 reads as 0 whatever stands here, and no instruction changes it.
    pub x: [u64; 32],
    /// The address of the instruction that comes next.
    pub pc: u64,
}

impl Regs {
    ghost use Rattle.rv_table.specs.Registers.{registers_of, with_register};

    /// What register `register` reads as: 0 for register 0.
    pub fn read(&self, register: u8) -> u64
        requires { register < 32 }
        ensures { result ≡ registers_of self.now register }
    {
        if register == 0 {
            0
        } else {
            self.x[register as usize]
        }
    }

    /// Gives the register a value. A write to register 0 does nothing, so that its 0 stands in `x` too.
    pub fn write(&mut self, register: u8, value: u64)
        requires { register < 32 }
        ensures register { registers_of self.new ≡ with_register (registers_of self.old) register value }
        ensures zero { slice_index self.new.x 0 ≡ slice_index self.old.x 0 }
        ensures pc { self.new.pc ≡ self.old.pc }
    {
        if register != 0 {
            self.x[register as usize] = value;
        }
    }
}
