//! The core form of a module.
use crate::declarations::declarations;
use ink_forms::Arena;
use ink_grammar::Module;
use ink_lexicon::{Surface, Words, words_of};
use ink_module::CoreModule;
use ink_tables::Lines;
use std::alloc::{AllocError, Global};

/// The core form of a module whose words are in this source. Nothing in it needs the source.
///
/// An `AllocError` says nothing of the module: memory ran out, its core form has more nodes than can be numbered, or its
/// forms stand deeper in one another than those of any module whose heights are in their limit.
pub fn desugar(alloc: Global, source: &[u8], parsed: &Module) -> Result<CoreModule, AllocError> {
    let words = words_of(alloc, source, parsed)?;
    let lines = Lines::of(alloc, source)?;
    let mut arena = Arena::new(alloc);
    let surface = Surface {
        alloc,
        source,
        module: parsed,
        words: &words,
    };
    let declarations = declarations(&surface, &mut arena, parsed.root())?;
    let Words {
        names,
        integers,
        texts,
    } = words;
    Ok(CoreModule {
        arena,
        declarations,
        names,
        integers,
        texts,
        lines,
    })
}
