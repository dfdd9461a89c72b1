//! Code as text.
ghost use Rattle.std.specs.Prelude.{◌≡◌, [], ◌∷◌, ◌++◌, IfOk, OnOk};
ghost use Rattle.ink_code.specs.Listing.{body_text, instr_text, listing_text, method_text, name_of, numbers_text, operands_of};

use crate::code::Code;
use crate::instr::Instr;
use crate::method::Method;
use crate::numbers::{put_number, put_numbers};
use ink_base::{Items, Text};
use std::alloc::{AllocError, Global};

/// The listing of a code: for each method a line `method NAME registers R`, and then for each of its instructions two
/// spaces, its place, its name and its operands.
#[tactic(auto, unfolding(crate::specs::Listing::listing_text))]
pub fn listing(alloc: Global, code: &Code) -> Result<Text, AllocError>
    ensures { IfOk result (λ text. text ≡ listing_text code.now) }
{
    let mut out = Vec::new(alloc);
    for method in code.methods.as_slice() {
        put_method(alloc, &mut out, method)?;
    }
    Ok(Text::from_bytes(out))
}

/// The line of one instruction in a listing, which tells its place.
pub fn instr_line(alloc: Global, place: u64, instr: &Instr) -> Result<Text, AllocError>
    ensures { IfOk result (λ text. text ≡ instr_text place instr.now) }
{
    let mut out = Vec::new(alloc);
    put_instr(alloc, &mut out, place, instr)?;
    Ok(Text::from_bytes(out))
}

/// Writes the lines of a method.
#[tactic(auto, unfolding(crate::specs::Listing::method_text, crate::specs::Listing::number_text))]
fn put_method(alloc: Global, out: &mut Vec<u8>, method: &Method) -> Result<(), AllocError>
    ensures { OnOk result (out.new.items ≡ out.old.items ++ method_text method.now) }
{
    out.extend_from_slice(b"method ")?;
    out.extend_from_slice(method.name.bytes())?;
    out.extend_from_slice(b" registers")?;
    put_number(alloc, out, method.registers)?;
    out.extend_from_slice(b"\n")?;
    put_body(alloc, out, method.body.as_slice())
}

/// Writes the lines of a method's instructions.
fn put_body(alloc: Global, out: &mut Vec<u8>, body: &[Instr]) -> Result<(), AllocError>
    ensures { OnOk result (out.new.items ≡ out.old.items ++ body_text 0 body.now) }
{
    for (place, instr) in body.iter().enumerate() {
        put_instr(alloc, out, place as u64, instr)?;
    }
    Ok(())
}

/// Writes the line of an instruction.
#[tactic(auto, unfolding(crate::specs::Listing::instr_text))]
fn put_instr(alloc: Global, out: &mut Vec<u8>, place: u64, instr: &Instr) -> Result<(), AllocError>
    ensures { OnOk result (out.new.items ≡ out.old.items ++ instr_text place instr.now) }
{
    let text = format!(in alloc; "  {place} ")?;
    out.extend_from_slice(text.as_bytes())?;
    out.extend_from_slice(name(instr))?;
    put_operands(alloc, out, instr)?;
    out.extend_from_slice(b"\n")
}

/// The name of an instruction.
#[tactic(auto, unfolding(crate::specs::Listing::name_of))]
fn name(instr: &Instr) -> &'static [u8]
    ensures { result.now ≡ name_of instr.now }
{
    match instr {
        Instr::Const { .. } => b"Const",
        Instr::Move { .. } => b"Move",
        Instr::Copy { .. } => b"Copy",
        Instr::Borrow { .. } => b"Borrow",
        Instr::Exchange { .. } => b"Exchange",
        Instr::MyProc { .. } => b"MyProc",
        Instr::Make { .. } => b"Make",
        Instr::MakeArray { .. } => b"MakeArray",
        Instr::Load { .. } => b"Load",
        Instr::LoadBorrow { .. } => b"LoadBorrow",
        Instr::Store { .. } => b"Store",
        Instr::Tag { .. } => b"Tag",
        Instr::TakeApart { .. } => b"TakeApart",
        Instr::Drop { .. } => b"Drop",
        Instr::DropMaybe { .. } => b"DropMaybe",
        Instr::Jump { .. } => b"Jump",
        Instr::JumpIf { .. } => b"JumpIf",
        Instr::Invoke { .. } => b"Invoke",
        Instr::InvokeBound { .. } => b"InvokeBound",
        Instr::Return { .. } => b"Return",
        Instr::Prim { .. } => b"Prim",
        Instr::Panic { .. } => b"Panic",
        Instr::Spawn { .. } => b"Spawn",
        Instr::Send { .. } => b"Send",
        Instr::Print { .. } => b"Print",
        Instr::FutureNew { .. } => b"FutureNew",
        Instr::FutureGet { .. } => b"FutureGet",
        Instr::PromiseSet { .. } => b"PromiseSet",
    }
}

/// Writes numbers, and then those of a list.
fn put_listed(
    alloc: Global,
    out: &mut Vec<u8>,
    first: &[u32],
    list: &Items<u32>,
) -> Result<(), AllocError>
    ensures { OnOk result (out.new.items ≡ out.old.items ++ numbers_text (first.now ++ list.now)) }
{
    put_numbers(alloc, out, first)?;
    put_numbers(alloc, out, list.as_slice())?;
    Ok(())
}

/// Writes the numbers of a list, and then one more.
fn put_before(
    alloc: Global,
    out: &mut Vec<u8>,
    list: &Items<u32>,
    last: u32,
) -> Result<(), AllocError>
    ensures { OnOk result (out.new.items ≡ out.old.items ++ numbers_text (list.now ++ last ∷ [])) }
{
    put_numbers(alloc, out, list.as_slice())?;
    put_number(alloc, out, last)?;
    Ok(())
}

/// Writes the operands of an instruction.
#[tactic(auto, unfolding(crate::specs::Listing::operands_of))]
fn put_operands(alloc: Global, out: &mut Vec<u8>, instr: &Instr) -> Result<(), AllocError>
    ensures { OnOk result (out.new.items ≡ out.old.items ++ numbers_text (operands_of instr.now)) }
{
    match instr {
        Instr::Const { to, constant } => put_numbers(alloc, out, &[*to, *constant]),
        Instr::Move { to, from } => put_numbers(alloc, out, &[*to, *from]),
        Instr::Copy { to, from } => put_numbers(alloc, out, &[*to, *from]),
        Instr::Borrow { to, from } => put_numbers(alloc, out, &[*to, *from]),
        Instr::Exchange { one, other } => put_numbers(alloc, out, &[*one, *other]),
        Instr::MyProc { to } => put_numbers(alloc, out, &[*to]),
        Instr::Make {
            to,
            kind,
            tag,
            fields,
        } => put_listed(alloc, out, &[*to, *kind, *tag], fields),
        Instr::MakeArray { to, items } => put_listed(alloc, out, &[*to], items),
        Instr::Load { to, object, field } => put_numbers(alloc, out, &[*to, *object, *field]),
        Instr::LoadBorrow { to, object, field } => put_numbers(alloc, out, &[*to, *object, *field]),
        Instr::Store {
            to,
            object,
            field,
            from,
        } => { put_numbers(alloc, out, &[*to, *object, *field, *from]) }
        Instr::Tag { to, object } => put_numbers(alloc, out, &[*to, *object]),
        Instr::TakeApart { to, object } => put_before(alloc, out, to, *object),
        Instr::Drop { from } => put_numbers(alloc, out, &[*from]),
        Instr::DropMaybe { from } => put_numbers(alloc, out, &[*from]),
        Instr::Jump { place } => put_numbers(alloc, out, &[*place]),
        Instr::JumpIf { on, place } => put_numbers(alloc, out, &[*on, *place]),
        Instr::Invoke {
            to,
            method,
            arguments,
        } => { put_listed(alloc, out, &[*to, *method], arguments) }
        Instr::InvokeBound {
            to,
            slot,
            arguments,
        } => { put_listed(alloc, out, &[*to, *slot], arguments) }
        Instr::Return { from } => put_numbers(alloc, out, &[*from]),
        Instr::Prim { row, to, operands } => put_listed(alloc, out, &[*row, *to], operands),
        Instr::Panic { text } => put_numbers(alloc, out, &[*text]),
        Instr::Spawn { to, kind, fields } => put_listed(alloc, out, &[*to, *kind], fields),
        Instr::Send {
            process,
            method,
            arguments,
        } => { put_listed(alloc, out, &[*process, *method], arguments) }
        Instr::Print { text } => put_numbers(alloc, out, &[*text]),
        Instr::FutureNew { future, promise } => put_numbers(alloc, out, &[*future, *promise]),
        Instr::FutureGet { to, future } => put_numbers(alloc, out, &[*to, *future]),
        Instr::PromiseSet { promise, from } => put_numbers(alloc, out, &[*promise, *from]),
    }
}
