//! Which form of a pattern a node is, over the nodes below it.
ghost use Rattle.std.specs.Prelude.{◌≡◌, IfOk, map};
ghost use Rattle.ink_grammar.specs.Views.{tree_at};
ghost use Rattle.ink_patterns.specs.Patterns as table;

use ink_forms::{Identifier, Literal, Made, NameId};
use ink_grammar::{FourChildren, Keyword, Node, Shape, Terminal, ThreeChildren, TwoChildren};
use ink_lexicon::{
    Surface, alternatives_of, empty_literal, identifier, integer_literal, items_of, made_of, name,
    text_literal, token_of,
};
use std::alloc::AllocError;

/// A field of a pattern, and the node of its pattern.
#[derive(Clone, Copy)]
pub(crate) struct FieldPart {
    pub field: Identifier,
    pub part: u32,
}

/// A form of patterns, and the nodes of the patterns in it.
#[derive(Drop)]
pub(crate) enum PatternForm {
    Wildcard,
    Lit { literal: Literal },
    Name { is_mutable: bool, name: NameId },
    Constructor { made: Made, parts: Vec<u32> },
    Either { alternatives: Vec<u32> },
    Fields { fields: Vec<FieldPart> },
}

/// A token as a pattern.
#[tactic(auto, unfolding(crate::specs::Patterns::leaf_pattern))]
fn leaf_form(surface: &Surface, token: Terminal) -> PatternForm
    ensures { table.shown_from surface.now token.start result ≡ table.leaf_pattern surface.now token.shape token }
{
    match token.shape {
        Shape::Name => PatternForm::Name {
            is_mutable: false,
            name: name(surface, token),
        },
        Shape::Constant => PatternForm::Constructor {
            made: made_of(surface, token),
            parts: Vec::new(surface.alloc),
        },
        Shape::Integer | Shape::Hexadecimal => PatternForm::Lit {
            literal: integer_literal(surface, token),
        },
        Shape::Keyword(Keyword::True) => PatternForm::Lit {
            literal: Literal::Bool(true),
        },
        Shape::Keyword(Keyword::False) => PatternForm::Lit {
            literal: Literal::Bool(false),
        },
        _ => PatternForm::Wildcard,
    }
}

/// A text without embedded expressions.
fn whole_text(surface: &Surface, list: u32) -> Result<Literal, AllocError>
    ensures { IfOk result (λ literal. literal ≡ table.whole_text surface.now (tree_at surface.now.module.now list)) }
{
    match surface.module.node(list) {
        Some(Node::Two(TwoChildren::More, _, _, part)) => {
            text_literal(surface, token_of(surface.module, part))
        }
        _ => Ok(empty_literal(surface)),
    }
}

/// The field and the pattern of a field's pattern. An item that is none is a field and a pattern itself.
fn field_part(surface: &Surface, item: u32) -> FieldPart
    ensures { table.field_at surface.now result ≡ table.field surface.now (tree_at surface.now.module.now item) }
{
    match surface.module.node(item) {
        Some(Node::Two(TwoChildren::FieldPattern, _, named, part)) => FieldPart {
            field: identifier(surface, token_of(surface.module, named)),
            part,
        },
        _ => FieldPart {
            field: identifier(surface, token_of(surface.module, item)),
            part: item,
        },
    }
}

/// The fields of a list, with the nodes of their patterns.
fn field_parts(surface: &Surface, list: u32) -> Result<Vec<FieldPart>, AllocError>
    ensures { IfOk result (λ fields. map (table.field_at surface.now) fields.items ≡ table.fields_in surface.now (tree_at surface.now.module.now list)) }
{
    let items = items_of(surface.alloc, surface.module, list)?;
    let mut fields = Vec::new(surface.alloc);
    for item in &items {
        fields.push(field_part(surface, *item))?;
    }
    Ok(fields)
}

/// A pattern of two nodes.
#[tactic(auto, using(crate::proofs::Listed::patterns_at_items, crate::proofs::Listed::alternatives_at), unfolding(crate::specs::Patterns::pattern))]
fn form_of_two(
    surface: &Surface,
    form: TwoChildren,
    start: u32,
    a: u32,
    b: u32,
) -> Result<PatternForm, AllocError>
    ensures { IfOk result (λ found. table.shown_from surface.now start found ≡ table.pattern_of_two surface.now form start a b) }
{
    match form {
        TwoChildren::MutableName => {
            let name = name(surface, token_of(surface.module, b));
            let is_mutable = true;
            Ok(PatternForm::Name { is_mutable, name })
        }
        TwoChildren::ConstructorPattern => {
            let parts = items_of(surface.alloc, surface.module, b)?;
            let made = made_of(surface, token_of(surface.module, a));
            Ok(PatternForm::Constructor { made, parts })
        }
        TwoChildren::FieldPatterns => {
            let fields = field_parts(surface, b)?;
            Ok(PatternForm::Fields { fields })
        }
        TwoChildren::Either => {
            let mut alternatives = alternatives_of(surface.alloc, surface.module, a)?;
            alternatives.push(b)?;
            Ok(PatternForm::Either { alternatives })
        }
        TwoChildren::Text => {
            let literal = whole_text(surface, b)?;
            Ok(PatternForm::Lit { literal })
        }
        _ => Ok(PatternForm::Wildcard),
    }
}

/// The form of a node. What is no pattern is `_`.
#[tactic(auto, unfolding(crate::specs::Patterns::pattern))]
pub(crate) fn pattern_form(surface: &Surface, number: u32) -> Result<PatternForm, AllocError>
    ensures { IfOk result (λ form. table.shown surface.now number form ≡ table.pattern_at surface.now number) }
{
    match surface.module.node(number) {
        Some(Node::Leaf(token)) => Ok(leaf_form(surface, token)),
        Some(Node::Two(form, start, a, b)) => form_of_two(surface, form, start, a, b),
        Some(Node::Three(ThreeChildren::PairPattern, _, _, a, b)) => {
            let made = Made::Tuple2;
            let parts = vec![in surface.alloc; a, b]?;
            Ok(PatternForm::Constructor { made, parts })
        }
        Some(Node::Four(FourChildren::TriplePattern, _, _, a, b, c)) => {
            let made = Made::Tuple3;
            let parts = vec![in surface.alloc; a, b, c]?;
            Ok(PatternForm::Constructor { made, parts })
        }
        _ => Ok(PatternForm::Wildcard),
    }
}
