//! The grammar as data: what each part of a module may be, symbol by symbol.

ghost use Rattle.std.specs.Prelude.{◌≡◌, map};
ghost use Rattle.ink_grammar.specs.Grammar as spec;

use crate::symbol::{Nonterminal, Symbol};
use crate::token::Shape;
use crate::{methods, modules, operands, patterns, statements, types};

/// Each way to write the part.
pub fn rules(part: Nonterminal) -> &'static [&'static [Symbol]]
    ensures { map (λ rule. rule.now) result.now ≡ spec.rules part }
{
    match part {
        Nonterminal::Module(part) => modules::rules(part),
        Nonterminal::Method(part) => methods::rules(part),
        Nonterminal::Type(part) => types::rules(part),
        Nonterminal::Statement(part) => statements::rules(part),
        Nonterminal::Operand(part) => operands::rules(part),
        Nonterminal::Pattern(part) => patterns::rules(part),
    }
}

/// Whether the part may be no token at all.
pub fn may_be_empty(part: Nonterminal) -> bool
    ensures { result ≡ spec.may_be_empty part }
{
    match part {
        Nonterminal::Module(part) => modules::may_be_empty(part),
        Nonterminal::Method(part) => methods::may_be_empty(part),
        Nonterminal::Type(part) => types::may_be_empty(part),
        Nonterminal::Statement(part) => statements::may_be_empty(part),
        Nonterminal::Operand(part) => operands::may_be_empty(part),
        Nonterminal::Pattern(part) => patterns::may_be_empty(part),
    }
}

/// Whether the part may begin with a token of this shape.
pub fn begins(part: Nonterminal, shape: Shape, new_line: bool) -> bool
    ensures { result ≡ spec.begins part shape new_line }
{
    match part {
        Nonterminal::Module(part) => modules::begins(part, shape, new_line),
        Nonterminal::Method(part) => methods::begins(part, shape, new_line),
        Nonterminal::Type(part) => types::begins(part, shape, new_line),
        Nonterminal::Statement(part) => statements::begins(part, shape, new_line),
        Nonterminal::Operand(part) => operands::begins(part, shape, new_line),
        Nonterminal::Pattern(part) => patterns::begins(part, shape, new_line),
    }
}
