//! What a run begins with: a type `Main` that is async, without fields and type parameters, and its method `main`, which
//! is `fn async`, without parameters and type parameters.

use crate::words::{Words, is_word};
use ink_base::Rule;
use ink_forms::{
    Arena, Declaration, Implementation, Member, MethodDeclaration, Mode, TypeDeclaration, TypeForm,
};
use ink_names::Least;

/// Whether a method is one with which a run can begin.
fn is_main(arena: &Arena, words: Words, method: &MethodDeclaration) -> bool {
    let node = arena.method(method.method).method;
    is_word(words.main_method, method.name.name)
        && matches!(node.mode, Mode::Plain)
        && node.is_async
        && method.type_parameters.is_empty()
        && arena.list(node.parameters).is_empty()
}

/// Whether a type has a field among these members.
fn has_field(members: &[Member]) -> bool {
    for member in members {
        if let Member::Field(_) = member {
            return true;
        }
    }
    false
}

/// Whether a type is one with which a run can begin.
fn is_main_type(words: Words, declared: &TypeDeclaration) -> bool {
    is_word(words.main_type, declared.name.name)
        && matches!(declared.form, TypeForm::Async)
        && declared.parameters.is_empty()
        && !has_field(&declared.members)
}

/// Whether one of these members is a method with which a run can begin.
fn has_main_member(arena: &Arena, words: Words, members: &[Member]) -> bool {
    for member in members {
        if let Member::Method(method) = member {
            if is_main(arena, words, method) {
                return true;
            }
        }
    }
    false
}

/// Whether an impl without a trait has the method with which a run can begin.
fn has_main_in_impl(arena: &Arena, words: Words, declared: &Implementation) -> bool {
    if declared.of_trait.is_some() || !is_word(words.main_type, declared.name.name) {
        return false;
    }
    for method in &declared.methods {
        if is_main(arena, words, method) {
            return true;
        }
    }
    false
}

/// Judges that a module has the type and the method with which a run begins. Where it doesn't, that is told at its first
/// byte.
pub(crate) fn judge_program(
    arena: &Arena,
    words: Words,
    least: &mut Least,
    declarations: &[Declaration],
) {
    let mut has_type = false;
    let mut has_method = false;
    for declaration in declarations {
        match declaration {
            Declaration::Type(declared) if is_main_type(words, declared) => {
                has_type = true;
                has_method = has_method || has_main_member(arena, words, &declared.members);
            }
            Declaration::Implementation(declared) => {
                has_method = has_method || has_main_in_impl(arena, words, declared);
            }
            _ => {}
        }
    }
    if !(has_type && has_method) {
        least.break_at(Rule::NoMain, 0);
    }
}
