//! What is known of values before the program runs, in the place of values.

ghost use Rattle.cmm_static_semantics.specs.Algebras.{knowns};
ghost use Rattle.cmm_operators.specs.Fitting.{IsKnown};

use crate::known::{
    known_binary, known_constant, known_low_bits, known_sign_extended, known_unary,
    known_zero_extended,
};
use crate::values::Values;
use cmm_static_semantics::Known;
use cmm_words::{Cmp, Constant, Op1, Op2, Width};
use std::convert::Infallible;

/// What is known of values before the program runs. Of a condition nothing is.
#[derive(Drop)]
pub struct Knowns;

impl Values for Knowns {
    type Value = Known;

    type Condition = ();

    type Failure = Infallible;

    ghost algebra = { knowns };

    ghost fits = { IsKnown };

    fn constant(&self, constant: Constant) -> Result<Known, Infallible> {
        Ok(known_constant(constant))
    }

    fn variable(&self, _: u32, _: Width) -> Result<Known, Infallible> {
        Ok(Known::Nothing)
    }

    fn register(&self, _: u32, _: Width) -> Result<Known, Infallible> {
        Ok(Known::Nothing)
    }

    fn stackdata(&self, _: u32) -> Result<Known, Infallible> {
        Ok(Known::Nothing)
    }

    fn continuation(&self, _: u32) -> Result<Known, Infallible> {
        Ok(Known::Nothing)
    }

    fn load(&self, _: Width, _: u64, _: Known) -> Result<Known, Infallible> {
        Ok(Known::Nothing)
    }

    fn unary(&self, operator: Op1, width: Width, a: Known) -> Result<Known, Infallible> {
        Ok(known_unary(operator, width, a))
    }

    fn binary(&self, operator: Op2, width: Width, a: Known, b: Known) -> Result<Known, Infallible> {
        Ok(known_binary(operator, width, a, b))
    }

    fn sign_extend(&self, from: Width, to: Width, a: Known) -> Result<Known, Infallible> {
        Ok(known_sign_extended(from, to, a))
    }

    fn zero_extend(&self, from: Width, to: Width, a: Known) -> Result<Known, Infallible> {
        Ok(known_zero_extended(from, to, a))
    }

    fn low_part(&self, _: Width, to: Width, a: Known) -> Result<Known, Infallible> {
        Ok(known_low_bits(to, a))
    }

    fn compare(&self, _: Cmp, _: Width, _: Known, _: Known) -> Result<(), Infallible> {
        Ok(())
    }

    fn negated(&self, _: ()) -> Result<(), Infallible> {
        Ok(())
    }

    fn conjoined(&self, _: (), _: ()) -> Result<(), Infallible> {
        Ok(())
    }

    fn disjoined(&self, _: (), _: ()) -> Result<(), Infallible> {
        Ok(())
    }
}
