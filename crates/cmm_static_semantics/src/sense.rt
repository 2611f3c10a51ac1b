//! What a name means (C-- Language Specification 2.0, scope of names).

ghost use Rattle.std.specs.Prelude.{◌≡◌};
ghost use Rattle.cmm_static_semantics.specs.Senses.{target_width};

use cmm_words::{Constant, Width};

/// A procedure of the host, whose name every unit has.
#[derive(Clone, Copy)]
pub enum Host {
    /// `yield`, which enters the run-time system.
    Yield,
    /// `cmm_putbyte`, which writes a byte to the output.
    PutByte,
    /// `cmm_getbyte`, which reads a byte of the input.
    GetByte,
}

/// What a name means. Where its declaration breaks a rule, a width or a value may be absent: what is said of its uses then depends
/// on neither.
#[derive(Clone, Copy)]
pub enum Sense {
    /// A variable of the procedure, by its number.
    Variable(u32, Option<Width>),
    /// A global register, by its number.
    Register(u32, Option<Width>),
    /// A constant, or the address of a procedure, of what is imported or of a data label.
    Value(Constant),
    /// A constant whose value is broken, and its width where that is not.
    Broken(Option<Width>),
    /// A stackdata label of the procedure, by its number.
    Stackdata(u32),
    /// A continuation of the procedure, by its number.
    Continuation(u32),
    /// A type.
    Typedef(Option<Width>),
    /// A label of a statement, which has no value.
    CodeLabel,
    /// A procedure of the host.
    Host(Host),
}

impl Sense {
    /// The width of what can be assigned to, where it has one.
    pub fn target_width(sense: Option<Sense>) -> Option<Width>
        ensures { result ≡ target_width sense }
    {
        match sense {
            Some(Sense::Variable(_, width)) | Some(Sense::Register(_, width)) => width,
            _ => None,
        }
    }
}
