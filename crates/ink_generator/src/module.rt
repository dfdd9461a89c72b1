//! The lines of the module.
ghost use Rattle.std.specs.Prelude.{◌≡◌, ◌++◌, IfOk, OnOk};
ghost use Rattle.ink_generator.specs.Generated.{generated, lines, main_lines, numbered, send_line, step_line};

use ink_base::Text;
use itoa::Buffer;
use std::alloc::{AllocError, Global};

/// What stands before the steps.
const HEAD: &[u8] =
    b"import std.stdio (Stdout)\ntype async Sum {\nlet @sum: Int\nlet @left: Int\nfn async mut add(items: uni Array[Int]) {\n@sum += items.get(0).get\n@left -= 1\nif @left == 0 { Stdout.new.print('sum ${@sum}') }\n}\n}\n";

/// Writes a text and a number behind it.
#[tactic(auto, unfolding(crate::specs::Generated::numbered))]
fn put_numbered(out: &mut Vec<u8>, text: &[u8], number: u32) -> Result<(), AllocError>
    ensures { OnOk result (out.new.items ≡ out.old.items ++ numbered text.now number) }
{
    out.extend_from_slice(text)?;
    out.extend_from_slice(Buffer::new().format(number).as_bytes())
}

/// Writes the method of a step.
fn put_step(out: &mut Vec<u8>, step: u32) -> Result<(), AllocError>
    ensures { OnOk result (out.new.items ≡ out.old.items ++ step_line step) }
{
    put_numbered(out, b"fn step_", step)?;
    put_numbered(out, b"(x: Int) -> Int { x * ", step % 7 + 2)?;
    put_numbered(out, b" + ", step)?;
    out.extend_from_slice(b" % 1000 }\n")?;
    Ok(())
}

/// Writes the methods of the steps from 1 on.
fn put_steps(out: &mut Vec<u8>, steps: u32) -> Result<(), AllocError>
    ensures { OnOk result (out.new.items ≡ out.old.items ++ lines step_line steps) }
{
    for before in 0..steps {
        put_step(out, before + 1)?;
    }
    Ok(())
}

/// Writes the lines between the steps and the messages.
#[tactic(auto, unfolding(crate::specs::Generated::main_lines))]
fn put_main(out: &mut Vec<u8>, steps: u32) -> Result<(), AllocError>
    ensures { OnOk result (out.new.items ≡ out.old.items ++ main_lines steps) }
{
    put_numbered(
        out,
        b"type async Main {\nfn async main {\nlet s = Sum(0, ",
        steps,
    )?;
    out.extend_from_slice(b")\n")?;
    Ok(())
}

/// Writes the message that has a step made.
fn put_send(out: &mut Vec<u8>, step: u32) -> Result<(), AllocError>
    ensures { OnOk result (out.new.items ≡ out.old.items ++ send_line step) }
{
    put_numbered(out, b"s.add(recover [step_", step)?;
    put_numbered(out, b"(", step)?;
    out.extend_from_slice(b")])\n")?;
    Ok(())
}

/// Writes the messages of the steps from 1 on.
fn put_sends(out: &mut Vec<u8>, steps: u32) -> Result<(), AllocError>
    ensures { OnOk result (out.new.items ≡ out.old.items ++ lines send_line steps) }
{
    for before in 0..steps {
        put_send(out, before + 1)?;
    }
    Ok(())
}

/// The module for a number of steps. An `AllocError` is want of memory.
///
/// It prints `sum ` and the sum over the steps k from 1 on of (k × a + k) modulo 1000, where a is two more than k modulo
/// 7: each step is sent to a second process, which prints when the last has come.
pub fn make_module(alloc: Global, steps: u32) -> Result<Text, AllocError>
    ensures { IfOk result (λ text. text ≡ generated steps) }
{
    let mut out = Vec::new(alloc);
    out.extend_from_slice(HEAD)?;
    put_steps(&mut out, steps)?;
    put_main(&mut out, steps)?;
    put_sends(&mut out, steps)?;
    out.extend_from_slice(b"}\n}\n")?;
    Ok(Text::from_bytes(out))
}
