//! Declarations.
use crate::methods::{identifiers, method, mode_of, parameters, type_parameters};
use ink_forms::{
    Arena, Constructor, Declaration, Declarations, Field, Implementation, Import, Member,
    MethodDeclaration, Trait, TraitMethod, TypeDeclaration, TypeForm,
};
use ink_grammar::{FiveChildren, FourChildren, Keyword, Node, ThreeChildren, TwoChildren};
use ink_lexicon::{Surface, has_word, identifier, is_written, items_of, token_of};
use ink_patterns::{DEEPEST, optional_type, types, written_type};
use std::alloc::AllocError;

/// The imports of a list.
fn imports(surface: &Surface, list: u32) -> Result<Vec<Import>, AllocError> {
    let items = items_of(surface.alloc, surface.module, list)?;
    let mut made = Vec::new(surface.alloc);
    for item in &items {
        if let Some(Node::Three(ThreeChildren::Import, start, _, path, names)) = surface
            .module
            .node(*item)
        {
            let path = identifiers(surface, path)?;
            let names = identifiers(surface, names)?;
            made.push(Import { start, path, names })?;
        }
    }
    Ok(made)
}

/// A field of a type.
fn field(
    surface: &Surface,
    arena: &mut Arena,
    start: u32,
    words: u32,
    named: u32,
    written: u32,
) -> Result<Field, AllocError> {
    let is_public = has_word(surface.alloc, surface.module, words, Keyword::Pub)?;
    let is_mutable = has_word(surface.alloc, surface.module, words, Keyword::Mut)?;
    let annotation = written_type(surface, arena, DEEPEST, written)?;
    Ok(Field {
        start,
        is_public,
        is_mutable,
        name: identifier(surface, token_of(surface.module, named)),
        annotation,
    })
}

/// A constructor of an enum.
fn constructor(
    surface: &Surface,
    arena: &mut Arena,
    start: u32,
    named: u32,
    list: u32,
) -> Result<Constructor, AllocError> {
    let items = items_of(surface.alloc, surface.module, list)?;
    let types = types(surface, arena, DEEPEST, &items)?;
    Ok(Constructor {
        start,
        name: identifier(surface, token_of(surface.module, named)),
        types,
    })
}

/// A member of a type. A node that is none makes none.
fn member(surface: &Surface, arena: &mut Arena, number: u32) -> Result<Option<Member>, AllocError> {
    match surface.module.node(number) {
        Some(Node::Four(FourChildren::FieldDeclaration, start, _, words, named, written)) => {
            let field = field(surface, arena, start, words, named, written)?;
            Ok(Some(Member::Field(field)))
        }
        Some(Node::Three(ThreeChildren::Constructor, start, _, named, list)) => {
            let made = constructor(surface, arena, start, named, list)?;
            Ok(Some(Member::Constructor(made)))
        }
        Some(Node::Four(FourChildren::Method, start, _, words, signature, block)) => {
            let made = method(surface, arena, start, words, signature, block)?;
            Ok(Some(Member::Method(made)))
        }
        _ => Ok(None),
    }
}

/// The members of a list.
fn members(surface: &Surface, arena: &mut Arena, list: u32) -> Result<Vec<Member>, AllocError> {
    let items = items_of(surface.alloc, surface.module, list)?;
    let mut made = Vec::new(surface.alloc);
    for item in &items {
        if let Some(member) = member(surface, arena, *item)? {
            made.push(member)?;
        }
    }
    Ok(made)
}

/// What a type that is no enum is, by the words behind its own.
fn form_of(surface: &Surface, words: u32) -> Result<TypeForm, AllocError> {
    if has_word(surface.alloc, surface.module, words, Keyword::Async)? {
        Ok(TypeForm::Async)
    } else {
        Ok(TypeForm::Plain)
    }
}

/// A type: its words, its name, its type parameters and its members.
fn type_declaration(
    surface: &Surface,
    arena: &mut Arena,
    start: u32,
    form: TypeForm,
    parts: [u32; 4],
) -> Result<TypeDeclaration, AllocError> {
    let is_public = has_word(surface.alloc, surface.module, parts[0], Keyword::Pub)?;
    let parameters = type_parameters(surface, parts[2])?;
    let members = members(surface, arena, parts[3])?;
    Ok(TypeDeclaration {
        start,
        form,
        is_public,
        name: identifier(surface, token_of(surface.module, parts[1])),
        parameters,
        members,
    })
}

/// A method of a trait: its words, its name, its parameters and its result.
fn trait_method(
    surface: &Surface,
    arena: &mut Arena,
    start: u32,
    parts: [u32; 4],
) -> Result<TraitMethod, AllocError> {
    let is_public = has_word(surface.alloc, surface.module, parts[0], Keyword::Pub)?;
    let mode = mode_of(surface, parts[0])?;
    let parameters = parameters(surface, arena, parts[2])?;
    let result = optional_type(surface, arena, parts[3])?;
    Ok(TraitMethod {
        start,
        is_public,
        mode,
        name: identifier(surface, token_of(surface.module, parts[1])),
        parameters,
        result,
    })
}

/// The methods of a trait.
fn trait_methods(
    surface: &Surface,
    arena: &mut Arena,
    list: u32,
) -> Result<Vec<TraitMethod>, AllocError> {
    let items = items_of(surface.alloc, surface.module, list)?;
    let mut made = Vec::new(surface.alloc);
    for item in &items {
        if let Some(
            Node::Five(FiveChildren::TraitMethod, start, _, words, named, list, result),
        ) = surface.module.node(*item)
        {
            let method = trait_method(surface, arena, start, [words, named, list, result])?;
            made.push(method)?;
        }
    }
    Ok(made)
}

/// The methods of an `impl`.
fn methods(
    surface: &Surface,
    arena: &mut Arena,
    list: u32,
) -> Result<Vec<MethodDeclaration>, AllocError> {
    let items = items_of(surface.alloc, surface.module, list)?;
    let mut made = Vec::new(surface.alloc);
    for item in &items {
        if let Some(Node::Four(FourChildren::Method, start, _, words, signature, block)) = surface
            .module
            .node(*item)
        {
            let method = method(surface, arena, start, words, signature, block)?;
            made.push(method)?;
        }
    }
    Ok(made)
}

/// Methods of a type: its name, or a trait's and the type's behind `for`, and the methods.
fn implementation(
    surface: &Surface,
    arena: &mut Arena,
    start: u32,
    parts: [u32; 3],
) -> Result<Implementation, AllocError> {
    let first = identifier(surface, token_of(surface.module, parts[0]));
    let methods = methods(surface, arena, parts[2])?;
    if is_written(surface.module, parts[1]) {
        return Ok(Implementation {
            start,
            of_trait: Some(first),
            name: identifier(surface, token_of(surface.module, parts[1])),
            methods,
        });
    }
    Ok(Implementation {
        start,
        of_trait: None,
        name: first,
        methods,
    })
}

/// A trait: its words, its name and its methods.
fn trait_of(
    surface: &Surface,
    arena: &mut Arena,
    start: u32,
    parts: [u32; 3],
) -> Result<Trait, AllocError> {
    let is_public = has_word(surface.alloc, surface.module, parts[0], Keyword::Pub)?;
    let methods = trait_methods(surface, arena, parts[2])?;
    Ok(Trait {
        start,
        is_public,
        name: identifier(surface, token_of(surface.module, parts[1])),
        methods,
    })
}

/// A declaration. A node that is none makes none.
fn declaration(
    surface: &Surface,
    arena: &mut Arena,
    number: u32,
) -> Result<Option<Declaration>, AllocError> {
    match surface.module.node(number) {
        Some(Node::Five(FiveChildren::TypeDeclaration, start, _, words, a, b, c)) => {
            let form = form_of(surface, words)?;
            let made = type_declaration(surface, arena, start, form, [words, a, b, c])?;
            Ok(Some(Declaration::Type(made)))
        }
        Some(Node::Five(FiveChildren::EnumDeclaration, start, _, words, a, b, c)) => {
            let form = TypeForm::Enum;
            let made = type_declaration(surface, arena, start, form, [words, a, b, c])?;
            Ok(Some(Declaration::Type(made)))
        }
        Some(Node::Four(FourChildren::Trait, start, _, words, named, list)) => {
            let made = trait_of(surface, arena, start, [words, named, list])?;
            Ok(Some(Declaration::Trait(made)))
        }
        Some(Node::Four(FourChildren::Implementation, start, _, a, b, c)) => {
            let made = implementation(surface, arena, start, [a, b, c])?;
            Ok(Some(Declaration::Implementation(made)))
        }
        Some(Node::Four(FourChildren::Method, start, _, words, signature, block)) => {
            let made = method(surface, arena, start, words, signature, block)?;
            Ok(Some(Declaration::Method(made)))
        }
        _ => Ok(None),
    }
}

/// The imports and the declarations of a module, by its root.
pub(crate) fn declarations(
    surface: &Surface,
    arena: &mut Arena,
    root: u32,
) -> Result<Declarations, AllocError> {
    let mut declarations = Vec::new(surface.alloc);
    let Some(Node::Two(TwoChildren::Module, _, first, second)) = surface.module.node(root) else {
        return Ok(Declarations {
            imports: Vec::new(surface.alloc),
            declarations,
        });
    };
    let imports = imports(surface, first)?;
    let items = items_of(surface.alloc, surface.module, second)?;
    for item in &items {
        if let Some(made) = declaration(surface, arena, *item)? {
            declarations.push(made)?;
        }
    }
    Ok(Declarations {
        imports,
        declarations,
    })
}
