//! What a code names.
ghost use Rattle.std.specs.Prelude.{◌↔◌, All, IsTrue};
ghost use Rattle.ink_ranges.specs.Ranges as spec;

use crate::instr::is_instr_within;
use crate::sizes::Sizes;
use ink_code::{Code, Impl, Instr, Method};

/// Whether each of some instructions is within its ranges.
fn is_body_within(body: &[Instr], sizes: Sizes) -> bool
    ensures { IsTrue result ↔ All (spec.IsInstrWithin sizes) body.now }
{
    body.iter().all(|instr| is_instr_within(instr, sizes))
}

/// Whether a method of a code is within its ranges.
fn is_method_within(method: &Method, code: &Code) -> bool
    ensures { IsTrue result ↔ spec.IsMethodWithin code.now method.now }
{
    let sizes = Sizes {
        registers: method.registers,
        places: method.body.len(),
        methods: code.methods.len(),
        constants: code.constants.len(),
        kinds: code.kinds.len(),
    };
    method.lines.len() == method.body.len() && is_body_within(method.body.as_slice(), sizes)
}

/// Whether each method of a code is within its ranges.
fn are_methods_within(code: &Code) -> bool
    ensures { IsTrue result ↔ All (spec.IsMethodWithin code.now) code.now.methods }
{
    code.methods
        .as_slice()
        .iter()
        .all(|method| is_method_within(method, code))
}

/// Whether the type and the method of an impl are there.
fn is_impl_within(one: &Impl, code: &Code) -> bool
    ensures { IsTrue result ↔ spec.IsImplWithin code.now one.now }
{
    (one.kind as u64) < code.kinds.len() && (one.method as u64) < code.methods.len()
}

/// Whether each impl of a code is within its ranges.
fn are_impls_within(code: &Code) -> bool
    ensures { IsTrue result ↔ All (spec.IsImplWithin code.now) code.now.impls }
{
    code.impls
        .as_slice()
        .iter()
        .all(|one| is_impl_within(one, code))
}

/// Whether all that a code names is there: what its instructions and impls name, and the type and the method that a run
/// begins with. Each instruction has its line, and none asks for a row that is an action.
pub fn is_within(code: &Code) -> bool
    ensures { IsTrue result ↔ spec.IsWithin code.now }
{
    are_methods_within(code)
        && are_impls_within(code)
        && (code.main_kind as u64) < code.kinds.len()
        && (code.main as u64) < code.methods.len()
}
