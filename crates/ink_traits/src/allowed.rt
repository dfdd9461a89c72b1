//! Which kinds and results of methods are allowed where, and which impls.

use ink_base::Rule;
use ink_forms::{Arena, Mode, TypeForm};
use ink_names::{Home, ImplEntry, KindId, KindName, Least, MethodEntry, Tables};

/// What a type is that the module declares.
fn declared_form(tables: &Tables, kind: KindId) -> Option<TypeForm> {
    let entry = tables.kind(kind)?;
    match entry.name {
        KindName::Declared(_) => Some(entry.form),
        KindName::BuiltIn(_) => None,
    }
}

/// Whether a type is one that the module declares, and an async one.
fn is_async_kind(tables: &Tables, kind: KindId) -> bool {
    matches!(declared_form(tables, kind), Some(TypeForm::Async))
}

/// Whether a method of an async type may be of this kind.
fn is_kind_of_async(mode: Mode, is_async: bool) -> bool {
    match mode {
        Mode::Plain | Mode::Mut => true,
        Mode::Move => false,
        Mode::Static => !is_async,
    }
}

/// Whether a method may be of this kind where it is declared.
fn is_kind_allowed(tables: &Tables, home: Home, mode: Mode, is_async: bool) -> bool {
    match home {
        Home::Module => matches!(mode, Mode::Plain) && !is_async,
        Home::Type(kind) | Home::Impl { kind, .. } => {
            if is_async_kind(tables, kind) {
                is_kind_of_async(mode, is_async)
            } else {
                !is_async
            }
        }
    }
}

/// Whether a method may have the result that is written. One that is called by messages has none.
fn is_result_allowed(entry: &MethodEntry) -> bool {
    !entry.is_async || entry.result.is_none()
}

/// The kind and the result of a method are allowed where it is declared.
fn judge_method(arena: &Arena, tables: &Tables, least: &mut Least, entry: &MethodEntry) {
    let is_allowed = is_kind_allowed(tables, entry.home, entry.mode, entry.is_async);
    if !is_allowed || !is_result_allowed(entry) {
        least.break_at(Rule::WrongSignature, arena.method(entry.node).place);
    }
}

/// The kinds and the results of methods are allowed where they are declared.
pub(crate) fn judge_methods(
    arena: &Arena,
    tables: &Tables,
    least: &mut Least,
    methods: &[MethodEntry],
) {
    for entry in methods {
        judge_method(arena, tables, least, entry);
    }
}

/// Whether an impl may stand there: one for a type that the module declares, which isn't async where a trait is named.
pub(crate) fn is_impl_allowed(tables: &Tables, entry: &ImplEntry) -> bool {
    match declared_form(tables, entry.kind) {
        Some(TypeForm::Async) => entry.of_trait.is_none(),
        Some(_) => true,
        None => false,
    }
}
