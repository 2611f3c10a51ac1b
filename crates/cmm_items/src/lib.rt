//! A `Vec` and a `Box` that contracts see as what they hold.
//!
//! Pointer and capacity are part of a `Vec`'s value, so two vectors of the same elements are not equal in a clause.
//! A type whose values contracts compare holds these instead: the clauses of a tree of them speak of lists and
//! values alone, and say what they hold exactly. A type may reach itself through either, as a syntax tree does.
//!
//! - `items`: `Items<T>`, a `Vec<T>` seen as the list of its elements, made from one and turned into one without
//!   taking memory.
//! - `boxed`: `Boxed<T>`, a `Box<T>` seen as its value.
#![tactic(auto)]

mod boxed;
mod items;

pub use boxed::Boxed;
pub use items::Items;
