//! Which form of a written type a node is, over the nodes below it.
ghost use Rattle.std.specs.Prelude.{◌≡◌, IfOk};
ghost use Rattle.ink_patterns.specs.Types as table;

use ink_forms::{NameId, Prefix};
use ink_grammar::{FourChildren, Keyword, Node, Shape, ThreeChildren, TwoChildren};
use ink_lexicon::{NO_WORD, Surface, items_of, name, token_of};
use std::alloc::AllocError;

/// A form of written types, and the nodes of the types in it.
#[derive(Drop)]
pub(crate) enum TypeForm {
    Named { name: NameId, arguments: Vec<u32> },
    Prefixed { prefix: Prefix, bare: u32 },
    Tuple { parts: Vec<u32> },
}

/// What stands before a type, by its word.
#[tactic(auto, unfolding(crate::specs::Types::prefix_of))]
fn prefix_of(shape: Shape) -> Prefix
    ensures { result ≡ table.prefix_of shape }
{
    match shape {
        Shape::Keyword(Keyword::Mut) => Prefix::Mut,
        Shape::Keyword(Keyword::Uni) => Prefix::Uni,
        _ => Prefix::Ref,
    }
}

/// The form of a node. What is no type is one without a name.
#[tactic(auto, using(crate::proofs::Listed::types_at_items), unfolding(crate::specs::Types::written))]
pub(crate) fn type_form(surface: &Surface, number: u32) -> Result<TypeForm, AllocError>
    ensures { IfOk result (λ form. table.shown surface.now number form ≡ table.written_at surface.now number) }
{
    match surface.module.node(number) {
        Some(Node::Two(TwoChildren::NamedType, _, named, list)) => {
            let name = name(surface, token_of(surface.module, named));
            let arguments = items_of(surface.alloc, surface.module, list)?;
            Ok(TypeForm::Named { name, arguments })
        }
        Some(Node::Two(TwoChildren::PrefixedType, _, word, bare)) => {
            let prefix = prefix_of(token_of(surface.module, word).shape);
            Ok(TypeForm::Prefixed { prefix, bare })
        }
        Some(Node::Three(ThreeChildren::PairType, _, _, a, b)) => {
            let parts = vec![in surface.alloc; a, b]?;
            Ok(TypeForm::Tuple { parts })
        }
        Some(Node::Four(FourChildren::TripleType, _, _, a, b, c)) => {
            let parts = vec![in surface.alloc; a, b, c]?;
            Ok(TypeForm::Tuple { parts })
        }
        _ => {
            let name = NO_WORD;
            let arguments = Vec::new(surface.alloc);
            Ok(TypeForm::Named { name, arguments })
        }
    }
}
