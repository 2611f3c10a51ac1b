//! The program that accepted units mean.
//!
//! It is a function of the units, `specs/Meaning.meaning_of`, which goes over their trees with the definitions of `cmm_static_semantics`: names are
//! replaced by numbers, call sites, labels, continuations and variables are numbered in textual order, each statement has the count of its own
//! tokens and each site the spans around it, data and labels of all units stand in one list, and registers of one name are one, numbered by the names. It computes:
//! `proofs/*Rows.antt` has units as text with their programs, and `proofs/*RuleRows.antt` those with the place at which they break a rule. For units that break a rule its value has no meaning.
//!
//! - `laws`: what holds of the program of accepted units.
#![tactic(auto)]

pub mod laws;
