//! Expressions with names resolved, in the place of values.

ghost use Rattle.cmm_typing.specs.Resolved.{resolved};

use cmm_items::Boxed;
use cmm_operators::Values;
use cmm_program::{Condition, Expression};
use cmm_words::{Cmp, Constant, Op1, Op2, Width};
use std::alloc::{AllocError, Global};

/// Expressions with names resolved, in memory of an allocator.
#[derive(Drop)]
pub(crate) struct Expressions {
    pub alloc: Global,
}

impl Values for Expressions {
    type Value = Expression;

    type Condition = Condition;

    type Failure = AllocError;

    ghost algebra = { resolved };

    ghost fits = { λ width x. Unit {0} };

    fn constant(&self, constant: Constant) -> Result<Expression, AllocError> {
        Ok(Expression::Known(constant))
    }

    fn variable(&self, number: u32, width: Width) -> Result<Expression, AllocError> {
        Ok(Expression::Variable(number, width))
    }

    fn register(&self, number: u32, width: Width) -> Result<Expression, AllocError> {
        Ok(Expression::Register(number, width))
    }

    fn stackdata(&self, number: u32) -> Result<Expression, AllocError> {
        Ok(Expression::Stackdata(number))
    }

    fn continuation(&self, number: u32) -> Result<Expression, AllocError> {
        Ok(Expression::Continuation(number))
    }

    fn load(
        &self,
        width: Width,
        aligned: u64,
        address: Expression,
    ) -> Result<Expression, AllocError> {
        let address = Boxed::new(self.alloc, address)?;
        let aligned = aligned.min(u64::from(u32::MAX)) as u32;
        Ok(Expression::Load {
            width,
            aligned,
            address,
        })
    }

    fn unary(&self, operator: Op1, width: Width, a: Expression) -> Result<Expression, AllocError> {
        let a = Boxed::new(self.alloc, a)?;
        Ok(Expression::Unary(operator, width, a))
    }

    fn binary(
        &self,
        operator: Op2,
        width: Width,
        a: Expression,
        b: Expression,
    ) -> Result<Expression, AllocError> {
        let a = Boxed::new(self.alloc, a)?;
        let b = Boxed::new(self.alloc, b)?;
        Ok(Expression::Binary(operator, width, a, b))
    }

    fn sign_extend(&self, from: Width, to: Width, a: Expression) -> Result<Expression, AllocError> {
        let a = Boxed::new(self.alloc, a)?;
        Ok(Expression::SignExtend(from, to, a))
    }

    fn zero_extend(&self, from: Width, to: Width, a: Expression) -> Result<Expression, AllocError> {
        let a = Boxed::new(self.alloc, a)?;
        Ok(Expression::ZeroExtend(from, to, a))
    }

    fn low_part(&self, from: Width, to: Width, a: Expression) -> Result<Expression, AllocError> {
        let a = Boxed::new(self.alloc, a)?;
        Ok(Expression::LowBits(from, to, a))
    }

    fn compare(
        &self,
        comparison: Cmp,
        width: Width,
        a: Expression,
        b: Expression,
    ) -> Result<Condition, AllocError> {
        let a = Boxed::new(self.alloc, a)?;
        let b = Boxed::new(self.alloc, b)?;
        Ok(Condition::Compare(comparison, width, a, b))
    }

    fn negated(&self, p: Condition) -> Result<Condition, AllocError> {
        let p = Boxed::new(self.alloc, p)?;
        Ok(Condition::Not(p))
    }

    fn conjoined(&self, p: Condition, q: Condition) -> Result<Condition, AllocError> {
        let p = Boxed::new(self.alloc, p)?;
        let q = Boxed::new(self.alloc, q)?;
        Ok(Condition::Both(p, q))
    }

    fn disjoined(&self, p: Condition, q: Condition) -> Result<Condition, AllocError> {
        let p = Boxed::new(self.alloc, p)?;
        let q = Boxed::new(self.alloc, q)?;
        Ok(Condition::Either(p, q))
    }
}
