//! How declarations are listed: a line for each declaration and each member.
use crate::item::{Item, Line};
use crate::output::list;
use crate::words;
use ink_forms::{
    Constructor, Declaration, Field, Identifier, Implementation, Import, Member, MethodDeclaration,
    Mode, Trait, TraitMethod, TypeDeclaration, TypeParameter,
};
use ink_module::CoreModule;
use std::alloc::{AllocError, Global};

fn add_flag(line: &mut Line, is_set: bool, word: &'static [u8]) {
    if is_set {
        line.word(word);
    }
}

fn add_mode(line: &mut Line, mode: Mode) {
    if let Some(word) = words::mode(mode) {
        line.word(word);
    }
}

fn add_name(line: &mut Line, name: Identifier) {
    line.name(name.name);
    line.put(Item::Byte(b"@", name.place));
}

fn add_names(line: &mut Line, names: &[Identifier]) {
    line.word(b"[");
    for name in names {
        add_name(line, *name);
    }
    line.word(b"]");
}

fn add_type_parameters(line: &mut Line, parameters: &[TypeParameter]) {
    for parameter in parameters {
        line.word(b"(for");
        add_name(line, parameter.name);
        add_names(line, &parameter.bounds);
        line.word(b")");
    }
}

fn add_parameters(line: &mut Line, numbers: &[u32]) {
    line.word(b"[");
    for number in numbers {
        line.put(Item::Parameter(*number));
    }
    line.word(b"]");
}

fn add_types(line: &mut Line, numbers: &[u32]) {
    line.word(b"[");
    for number in numbers {
        line.put(Item::Written(*number));
    }
    line.word(b"]");
}

fn add_result(line: &mut Line, written: Option<u32>) {
    if let Some(number) = written {
        line.word(b"->");
        line.put(Item::Written(number));
    }
}

/// A word that begins a line, and the byte at which it stands.
fn begin(line: &mut Line, word: &'static [u8], start: u32) {
    line.word(word);
    line.put(Item::Byte(b"@", start));
}

fn add_import(line: &mut Line, import: &Import) {
    begin(line, b"\nimport", import.start);
    add_names(line, &import.path);
    add_names(line, &import.names);
}

fn add_method(line: &mut Line, core: &CoreModule, word: &'static [u8], method: &MethodDeclaration) {
    let node = core.arena.method(method.method);
    line.word(word);
    line.places(node.start, node.place);
    add_flag(line, method.is_public, b"pub");
    add_flag(line, node.method.is_async, b"async");
    add_mode(line, node.method.mode);
    add_name(line, method.name);
    add_type_parameters(line, &method.type_parameters);
    add_parameters(line, core.arena.list(node.method.parameters));
    add_result(line, method.result);
    line.put(Item::Expr(node.method.body));
}

fn add_field(line: &mut Line, field: Field) {
    begin(line, b"\n  field", field.start);
    add_flag(line, field.is_public, b"pub");
    add_flag(line, field.is_mutable, b"mut");
    add_name(line, field.name);
    line.put(Item::Written(field.annotation));
}

fn add_constructor(line: &mut Line, constructor: &Constructor) {
    begin(line, b"\n  case", constructor.start);
    add_name(line, constructor.name);
    add_types(line, &constructor.types);
}

fn add_trait_method(line: &mut Line, method: &TraitMethod) {
    begin(line, b"\n  fn", method.start);
    add_flag(line, method.is_public, b"pub");
    add_mode(line, method.mode);
    add_name(line, method.name);
    add_parameters(line, &method.parameters);
    add_result(line, method.result);
}

fn add_type(line: &mut Line, core: &CoreModule, declared: &TypeDeclaration) {
    begin(line, b"\ntype", declared.start);
    add_flag(line, declared.is_public, b"pub");
    if let Some(word) = words::type_form(declared.form) {
        line.word(word);
    }
    add_name(line, declared.name);
    add_type_parameters(line, &declared.parameters);
    for member in &declared.members {
        match member {
            Member::Field(field) => add_field(line, *field),
            Member::Constructor(constructor) => add_constructor(line, constructor),
            Member::Method(method) => add_method(line, core, b"\n  fn", method),
        }
    }
}

fn add_trait(line: &mut Line, declared: &Trait) {
    begin(line, b"\ntrait", declared.start);
    add_flag(line, declared.is_public, b"pub");
    add_name(line, declared.name);
    for method in &declared.methods {
        add_trait_method(line, method);
    }
}

fn add_implementation(line: &mut Line, core: &CoreModule, declared: &Implementation) {
    begin(line, b"\nimpl", declared.start);
    if let Some(of_trait) = declared.of_trait {
        add_name(line, of_trait);
        line.word(b"for");
    }
    add_name(line, declared.name);
    for method in &declared.methods {
        add_method(line, core, b"\n  fn", method);
    }
}

fn add_declaration(line: &mut Line, core: &CoreModule, declaration: &Declaration) {
    match declaration {
        Declaration::Type(declared) => add_type(line, core, declared),
        Declaration::Trait(declared) => add_trait(line, declared),
        Declaration::Implementation(declared) => add_implementation(line, core, declared),
        Declaration::Method(method) => add_method(line, core, b"\nfn", method),
    }
}

/// Lists a module behind what `out` has, each line with a line feed before it. An `AllocError` is want of memory; a part
/// may stand in `out` then.
pub fn list_module(alloc: Global, core: &CoreModule, out: &mut Vec<u8>) -> Result<(), AllocError> {
    for import in &core.declarations.imports {
        let mut line = Line::new(alloc);
        add_import(&mut line, import);
        list(alloc, core, &line, out)?;
    }
    for declaration in &core.declarations.declarations {
        let mut line = Line::new(alloc);
        add_declaration(&mut line, core, declaration);
        list(alloc, core, &line, out)?;
    }
    Ok(())
}
