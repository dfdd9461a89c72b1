//! Tests of literals.

use crate::site::{Site, compare, compute, put_truth};
use ink_code::Instr;
use ink_code::row_numbers::{BOOL_IS_FALSE, INT_EQUAL, STRING_EQUAL};
use ink_emit::{Body, LowerFault};
use ink_forms::Literal;

/// Whether a value is a literal. The value stays, since a copy of it is compared.
pub(crate) fn test_literal(
    site: Site,
    body: &mut Body,
    literal: Literal,
    from: u32,
    to: u32,
) -> Result<(), LowerFault> {
    let constant = site.context.constants.literal(literal);
    body.emit(site.line, Instr::Copy { to, from })?;
    match literal {
        Literal::Bool(true) => Ok(()),
        Literal::Bool(false) => compute(site, body, BOOL_IS_FALSE, to, &[to]),
        Literal::Int(_) => compare(site, body, INT_EQUAL, to, constant),
        Literal::Text(_) => compare(site, body, STRING_EQUAL, to, constant),
        Literal::Nil => put_truth(site, body, to, true),
    }
}
