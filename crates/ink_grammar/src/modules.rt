//! The grammar of imports, declarations and their members: for each part its productions, whether it may be no token, and which tokens it may
//! begin with.

ghost use Rattle.std.specs.Prelude.{◌≡◌, map};
ghost use Rattle.ink_grammar.specs.Grammar as spec;

use crate::names::{action, part, token};
use crate::shape;
use crate::symbol::{ModulePart, Symbol};
use crate::token::{Shape, same};

const MODULE: &[&[Symbol]] = &[&[
    action::EMPTY,
    part::IMPORTS,
    action::EMPTY,
    part::DECLARATIONS,
    action::MODULE,
]];

const IMPORTS: &[&[Symbol]] = &[&[part::IMPORT, action::MORE, part::IMPORTS], &[]];

const IMPORT: &[&[Symbol]] = &[&[
    token::IMPORT,
    action::EMPTY,
    token::NAME,
    action::MORE,
    part::IMPORT_PATH,
    part::IMPORT_NAMES,
    action::IMPORT,
]];

const IMPORT_PATH: &[&[Symbol]] = &[
    &[token::DOT, token::NAME, action::MORE, part::IMPORT_PATH],
    &[],
];

const IMPORT_NAMES: &[&[Symbol]] = &[
    &[
        token::LEFT_PAREN,
        action::EMPTY,
        part::IMPORT_NAME,
        action::MORE,
        part::IMPORT_NAMES_REST,
    ],
    &[action::NOTHING],
];

const IMPORT_NAME: &[&[Symbol]] = &[&[token::NAME], &[token::CONSTANT]];

const IMPORT_NAMES_REST: &[&[Symbol]] = &[
    &[token::RIGHT_PAREN],
    &[token::COMMA, part::IMPORT_NAMES_MORE],
];

const IMPORT_NAMES_MORE: &[&[Symbol]] = &[
    &[token::RIGHT_PAREN],
    &[part::IMPORT_NAME, action::MORE, part::IMPORT_NAMES_REST],
];

const DECLARATIONS: &[&[Symbol]] = &[&[part::DECLARATION, action::MORE, part::DECLARATIONS], &[]];

const DECLARATION: &[&[Symbol]] = &[
    &[
        token::TYPE,
        action::EMPTY,
        part::OPTIONAL_PUB,
        part::TYPE_FORM,
    ],
    &[
        token::TRAIT,
        action::EMPTY,
        part::OPTIONAL_PUB,
        token::CONSTANT,
        token::LEFT_BRACE,
        action::EMPTY,
        part::TRAIT_METHODS,
        token::RIGHT_BRACE,
        action::TRAIT,
    ],
    &[
        token::IMPL,
        token::CONSTANT,
        part::IMPLEMENTED_TRAIT,
        token::LEFT_BRACE,
        action::EMPTY,
        part::METHODS,
        token::RIGHT_BRACE,
        action::IMPLEMENTATION,
    ],
    &[part::METHOD],
];

const TYPE_FORM: &[&[Symbol]] = &[
    &[
        token::ENUM,
        token::CONSTANT,
        part::TYPE_PARAMETERS,
        token::LEFT_BRACE,
        action::EMPTY,
        part::ENUM_MEMBERS,
        token::RIGHT_BRACE,
        action::ENUM_DECLARATION,
    ],
    &[token::ASYNC, action::MORE, part::OBJECT_FORM],
    &[part::OBJECT_FORM],
];

const OBJECT_FORM: &[&[Symbol]] = &[&[
    token::CONSTANT,
    part::TYPE_PARAMETERS,
    token::LEFT_BRACE,
    action::EMPTY,
    part::OBJECT_MEMBERS,
    token::RIGHT_BRACE,
    action::TYPE_DECLARATION,
]];

const OBJECT_MEMBERS: &[&[Symbol]] = &[
    &[part::FIELD_DECLARATION, action::MORE, part::OBJECT_MEMBERS],
    &[part::METHOD, action::MORE, part::OBJECT_MEMBERS],
    &[],
];

const ENUM_MEMBERS: &[&[Symbol]] = &[
    &[part::CONSTRUCTOR, action::MORE, part::ENUM_MEMBERS],
    &[part::METHOD, action::MORE, part::ENUM_MEMBERS],
    &[],
];

const FIELD_DECLARATION: &[&[Symbol]] = &[&[
    token::LET,
    action::EMPTY,
    part::OPTIONAL_PUB,
    part::OPTIONAL_MUT,
    token::FIELD,
    token::COLON,
    part::FULL_TYPE,
    action::FIELD_DECLARATION,
]];

const CONSTRUCTOR: &[&[Symbol]] = &[&[
    token::CASE,
    token::CONSTANT,
    part::CONSTRUCTOR_TYPES,
    action::CONSTRUCTOR,
]];

const TRAIT_METHODS: &[&[Symbol]] = &[
    &[part::TRAIT_METHOD, action::MORE, part::TRAIT_METHODS],
    &[],
];

const TRAIT_METHOD: &[&[Symbol]] = &[&[
    token::FN,
    action::EMPTY,
    part::OPTIONAL_PUB,
    part::TRAIT_METHOD_KIND,
    token::NAME,
    part::PARAMETERS,
    part::METHOD_RESULT,
    action::TRAIT_METHOD,
]];

const IMPLEMENTED_TRAIT: &[&[Symbol]] = &[&[token::FOR, token::CONSTANT], &[action::NOTHING]];

/// Each way to write the part.
pub fn rules(part: ModulePart) -> &'static [&'static [Symbol]]
    ensures { map (λ rule. rule.now) result.now ≡ spec.module_rules part }
{
    match part {
        ModulePart::Module => MODULE,
        ModulePart::Imports => IMPORTS,
        ModulePart::Import => IMPORT,
        ModulePart::ImportPath => IMPORT_PATH,
        ModulePart::ImportNames => IMPORT_NAMES,
        ModulePart::ImportName => IMPORT_NAME,
        ModulePart::ImportNamesRest => IMPORT_NAMES_REST,
        ModulePart::ImportNamesMore => IMPORT_NAMES_MORE,
        ModulePart::Declarations => DECLARATIONS,
        ModulePart::Declaration => DECLARATION,
        ModulePart::TypeForm => TYPE_FORM,
        ModulePart::ObjectForm => OBJECT_FORM,
        ModulePart::ObjectMembers => OBJECT_MEMBERS,
        ModulePart::EnumMembers => ENUM_MEMBERS,
        ModulePart::FieldDeclaration => FIELD_DECLARATION,
        ModulePart::Constructor => CONSTRUCTOR,
        ModulePart::TraitMethods => TRAIT_METHODS,
        ModulePart::TraitMethod => TRAIT_METHOD,
        ModulePart::ImplementedTrait => IMPLEMENTED_TRAIT,
    }
}

/// Whether the part may be no token at all.
pub fn may_be_empty(part: ModulePart) -> bool
    ensures { result ≡ spec.module_may_be_empty part }
{
    match part {
        ModulePart::Module => true,
        ModulePart::Imports => true,
        ModulePart::Import => false,
        ModulePart::ImportPath => true,
        ModulePart::ImportNames => true,
        ModulePart::ImportName => false,
        ModulePart::ImportNamesRest => false,
        ModulePart::ImportNamesMore => false,
        ModulePart::Declarations => true,
        ModulePart::Declaration => false,
        ModulePart::TypeForm => false,
        ModulePart::ObjectForm => false,
        ModulePart::ObjectMembers => true,
        ModulePart::EnumMembers => true,
        ModulePart::FieldDeclaration => false,
        ModulePart::Constructor => false,
        ModulePart::TraitMethods => true,
        ModulePart::TraitMethod => false,
        ModulePart::ImplementedTrait => true,
    }
}

/// Whether the part may begin with a token of this shape.
pub fn begins(part: ModulePart, shape: Shape, _new_line: bool) -> bool
    ensures { result ≡ spec.module_begins part shape _new_line }
{
    match part {
        ModulePart::Module => same(shape::IMPORT, shape)
            || same(shape::TYPE, shape)
            || same(shape::TRAIT, shape)
            || same(shape::IMPL, shape)
            || same(shape::FN, shape),
        ModulePart::Imports => same(shape::IMPORT, shape),
        ModulePart::Import => same(shape::IMPORT, shape),
        ModulePart::ImportPath => same(shape::DOT, shape),
        ModulePart::ImportNames => same(shape::LEFT_PAREN, shape),
        ModulePart::ImportName => same(shape::NAME, shape) || same(shape::CONSTANT, shape),
        ModulePart::ImportNamesRest => same(shape::RIGHT_PAREN, shape) || same(shape::COMMA, shape),
        ModulePart::ImportNamesMore => same(shape::RIGHT_PAREN, shape)
            || same(shape::NAME, shape)
            || same(shape::CONSTANT, shape),
        ModulePart::Declarations => same(shape::TYPE, shape)
            || same(shape::TRAIT, shape)
            || same(shape::IMPL, shape)
            || same(shape::FN, shape),
        ModulePart::Declaration => same(shape::TYPE, shape)
            || same(shape::TRAIT, shape)
            || same(shape::IMPL, shape)
            || same(shape::FN, shape),
        ModulePart::TypeForm => same(shape::ENUM, shape)
            || same(shape::ASYNC, shape)
            || same(shape::CONSTANT, shape),
        ModulePart::ObjectForm => same(shape::CONSTANT, shape),
        ModulePart::ObjectMembers => same(shape::LET, shape) || same(shape::FN, shape),
        ModulePart::EnumMembers => same(shape::CASE, shape) || same(shape::FN, shape),
        ModulePart::FieldDeclaration => same(shape::LET, shape),
        ModulePart::Constructor => same(shape::CASE, shape),
        ModulePart::TraitMethods => same(shape::FN, shape),
        ModulePart::TraitMethod => same(shape::FN, shape),
        ModulePart::ImplementedTrait => same(shape::FOR, shape),
    }
}
