//! The parser. What is still to come it keeps on a stack of symbols, so that a module nests as deep as memory allows:
//! each turn takes a token, or puts a production in the place of its part, or makes a node.

ghost use Rattle.std.specs.Prelude.{◌≡◌, ◌&&◌, ◌⊎◌, true, false, IfSome, IfNone, IfOk, IfErr, Some, None};
ghost use Rattle.ink_grammar.specs.Grammar as spec;
ghost use Rattle.ink_grammar.specs.Shapes as shapes;
ghost use Rattle.ink_grammar.specs.Machine as machine;
ghost use Rattle.ink_grammar.specs.Tree.{Tree};
ghost use Rattle.ink_grammar.specs.Language.{Parses};
ghost use Rattle.ink_grammar.specs.Faults.{IsFault};
ghost use Rattle.ink_grammar.specs.Views as view;
ghost use Rattle.ink_grammar.specs.declared.token.Terminal.{Terminal};
ghost use Rattle.ink_grammar.specs.declared.parser.ParseError.TheVariants.{Unexpected};

use crate::builder::Builder;
use crate::grammar::{begins, may_be_empty, rules};
use crate::stack::Stack;
use crate::symbol::{Line, ModulePart, Nonterminal, Symbol, Wanted, is, stands};
use crate::token::Terminal;
use crate::tree::Module;
use std::alloc::{AllocError, Global};

/// Why there is no module.
#[derive(Clone, Copy, Debug)]
pub enum ParseError {
    /// Memory ran out, or the module has more nodes than can be numbered.
    OutOfMemory,
    /// The number of the first token such that no module begins with the tokens up to it, counted from 0. Where the
    /// tokens begin a module and are none, it is their count.
    Unexpected(usize),
}

impl From<AllocError> for ParseError {
    ghost use Rattle.ink_grammar.specs.declared.parser.ParseError.TheVariants.{OutOfMemory};

    ghost from_gives = { λ _ e. e ≡ OutOfMemory };

    fn from(_error: AllocError) -> Self {
        ParseError::OutOfMemory
    }
}

/// Whether a rule may go on with this token, where none is the end.
fn fits(rule: &[Symbol], token: Option<Terminal>) -> bool
    ensures { result ≡ machine.fits rule.now token }
{
    match rule {
        [] => true,
        [Symbol::Do(_), ..] => true,
        [Symbol::Token(line, wanted), ..] => match token {
            Some(token) => stands(*line, token.new_line) && is(*wanted, token.shape),
            None => false,
        },
        [Symbol::Place(wanted), ..] => match token {
            Some(token) => !token.new_line && is(*wanted, token.shape),
            None => false,
        },
        [Symbol::Part(line, part), ..] => {
            if may_be_empty(*part) {
                return true;
            }
            match token {
                Some(token) => {
                    stands(*line, token.new_line) && begins(*part, token.shape, token.new_line)
                }
                None => false,
            }
        }
    }
}

/// The first production of the part that may go on with this token.
fn choose(part: Nonterminal, token: Option<Terminal>) -> Option<&'static [Symbol]>
    ensures some { IfSome result (λ rule. machine.pick (spec.rules part) token ≡ Some rule.now) }
    ensures none { IfNone result (machine.pick (spec.rules part) token ≡ None) }
{
    for rule in rules(part) {
        if fits(rule, token) {
            return Some(rule);
        }
    }
    None
}

/// Whether the token, or the end, stands so.
fn stands_so(line: Line, token: Option<Terminal>) -> bool
    ensures { result ≡ machine.stands_so line token }
{
    match line {
        Line::Any => true,
        _ => match token {
            Some(token) => stands(line, token.new_line),
            None => false,
        },
    }
}

fn token_at(tokens: &[Terminal], at: usize) -> Option<Terminal>
    ensures { result ≡ machine.token_at tokens.now at }
{
    match tokens.get(at) {
        Some(token) => Some(*token),
        None => None,
    }
}

/// The token, if it is one that is wanted and stands so.
fn wanted_token(
    line: Line,
    wanted: Wanted,
    token: Option<Terminal>,
    at: usize,
) -> Result<Terminal, ParseError>
    ensures taken { IfOk result (λ t. (token ≡ Some t) × (shapes.stands line t.new_line ≡ true) × (shapes.is wanted t.shape ≡ true)) }
    ensures refused { IfErr result (λ e. (e ≡ Unexpected at) × ((t : Terminal) → token ≡ Some t → shapes.stands line t.new_line && shapes.is wanted t.shape ≡ false)) }
{
    match token {
        Some(token) if stands(line, token.new_line) && is(wanted, token.shape) => Ok(token),
        _ => Err(ParseError::Unexpected(at)),
    }
}

/// The token, if it is one that is wanted and stands directly after a place.
fn wanted_after_place(
    is_place: bool,
    wanted: Wanted,
    token: Option<Terminal>,
    at: usize,
) -> Result<Terminal, ParseError>
    ensures taken { IfOk result (λ t. (token ≡ Some t) × (is_place ≡ true) × (t.new_line ≡ false) × (shapes.is wanted t.shape ≡ true)) }
    ensures refused { IfErr result (λ e. (e ≡ Unexpected at) × ((t : Terminal) → token ≡ Some t → is_place ≡ true → t.new_line ≡ false → shapes.is wanted t.shape ≡ true → ⊥)) }
{
    match token {
        Some(token) if is_place && !token.new_line && is(wanted, token.shape) => Ok(token),
        _ => Err(ParseError::Unexpected(at)),
    }
}

/// The production by which the part goes on with this token.
fn expand(
    line: Line,
    part: Nonterminal,
    token: Option<Terminal>,
    at: usize,
) -> Result<&'static [Symbol], ParseError>
    ensures chosen { IfOk result (λ rule. (machine.stands_so line token ≡ true) × (machine.pick (spec.rules part) token ≡ Some rule.now)) }
    ensures refused { IfErr result (λ e. (e ≡ Unexpected at) × ((machine.stands_so line token ≡ false) ⊎ (machine.pick (spec.rules part) token ≡ None))) }
{
    if !stands_so(line, token) {
        return Err(ParseError::Unexpected(at));
    }
    match choose(part, token) {
        Some(rule) => Ok(rule),
        None => Err(ParseError::Unexpected(at)),
    }
}

/// The module that the tokens are. What no production of the grammar derives is refused.
pub fn parse(alloc: Global, tokens: &[Terminal]) -> Result<Module, ParseError>
    ensures parsed { IfOk result (λ m. Parses tokens.now (view.tree m)) }
    ensures only { IfOk result (λ m. (t : Tree) → Parses tokens.now t → t ≡ view.tree m) }
    ensures refused { IfErr result (IsFault tokens.now) }
{
    let mut builder = Builder::new(alloc);
    let mut stack = Stack::new(alloc);
    stack.push(Symbol::Part(Line::Any, Nonterminal::Module(ModulePart::Module)))?;
    let mut at = 0;
    while let Some(symbol) = stack.pop() {
        let token = token_at(tokens, at);
        match symbol {
            Symbol::Token(line, wanted) => {
                let token = wanted_token(line, wanted, token, at)?;
                builder.keep(wanted, token)?;
                at += 1;
            }
            Symbol::Place(wanted) => {
                let token = wanted_after_place(builder.is_place(), wanted, token, at)?;
                builder.keep(wanted, token)?;
                at += 1;
            }
            Symbol::Part(line, part) => {
                let rule = expand(line, part, token, at)?;
                stack.push_all(rule)?;
            }
            Symbol::Do(action) => builder.act(action)?,
        }
    }
    if at < tokens.len() {
        return Err(ParseError::Unexpected(at));
    }
    Ok(builder.finish())
}
