//! Declarations of a unit (C-- Language Specification 2.0, declarations). The token of a node is the number of its first
//! token in the unit, from 0.

use crate::expression::{Expr, TypeName};
use crate::token::{Ident, Int, Text};
use cmm_items::Items;

/// A declaration.
#[derive(Debug)]
pub struct Decl {
    pub token: u32,
    pub form: DeclForm,
}

/// In one place, so that whoever lets one go has one call to prove.
impl Drop for Decl {
    fn drop(self) {
        let Self { token: _, form: _ } = self;
    }
}

/// What a declaration is.
#[derive(Debug, Drop)]
pub enum DeclForm {
    /// `import T a, "b" as c;`
    Import {
        width: Option<TypeName>,
        imports: Items<Import>,
    },
    /// `export T a, b as "c";`
    Export {
        width: Option<TypeName>,
        exports: Items<Export>,
    },
    /// `const T a = e;`
    Const {
        width: Option<TypeName>,
        name: Ident,
        value: Expr,
    },
    /// `typedef T a, b;`
    Typedef {
        width: TypeName,
        names: Items<Ident>,
    },
    /// `invariant register "kind" T a, b;`
    Register {
        invariant: bool,
        kind: Option<Text>,
        width: TypeName,
        names: Items<Ident>,
    },
    /// `target memsize 8 byteorder little;`
    Target(Items<Property>),
}

/// What an import gives a name to.
#[derive(Debug)]
pub struct Import {
    /// The name under which another unit exports it, where that differs.
    pub link: Option<Text>,
    pub name: Ident,
}

/// In one place, so that whoever lets one go has one call to prove.
impl Drop for Import {
    fn drop(self) {
        let Self { link: _, name: _ } = self;
    }
}

/// What an export publishes.
#[derive(Debug)]
pub struct Export {
    pub name: Ident,
    /// The name under which it is published, where that differs.
    pub link: Option<Text>,
}

/// In one place, so that whoever lets one go has one call to prove.
impl Drop for Export {
    fn drop(self) {
        let Self { name: _, link: _ } = self;
    }
}

/// A property of the target machine.
#[derive(Clone, Copy, Debug)]
pub struct Property {
    pub token: u32,
    pub form: PropertyForm,
}

/// What a property says.
#[derive(Clone, Copy, Debug)]
pub enum PropertyForm {
    Memsize(Int),
    Byteorder(ByteOrder),
    Pointersize(Int),
    Wordsize(Int),
}

/// The order of the bytes of a word.
#[derive(Clone, Copy, Debug)]
pub enum ByteOrder {
    Little,
    Big,
}
