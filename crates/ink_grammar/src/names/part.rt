//! The parts in productions, by short names.

use crate::symbol::{
    Line, MethodPart, ModulePart, Nonterminal, OperandPart, PatternPart, StatementPart, Symbol,
    TypePart,
};

pub const IMPORTS: Symbol = Symbol::Part(Line::Any, Nonterminal::Module(ModulePart::Imports));

pub const DECLARATIONS: Symbol = Symbol::Part(
    Line::Any,
    Nonterminal::Module(ModulePart::Declarations),
);

pub const IMPORT: Symbol = Symbol::Part(Line::Any, Nonterminal::Module(ModulePart::Import));

pub const IMPORT_PATH: Symbol = Symbol::Part(
    Line::Any,
    Nonterminal::Module(ModulePart::ImportPath),
);

pub const IMPORT_NAMES: Symbol = Symbol::Part(
    Line::Any,
    Nonterminal::Module(ModulePart::ImportNames),
);

pub const IMPORT_NAME: Symbol = Symbol::Part(
    Line::Any,
    Nonterminal::Module(ModulePart::ImportName),
);

pub const IMPORT_NAMES_REST: Symbol = Symbol::Part(
    Line::Any,
    Nonterminal::Module(ModulePart::ImportNamesRest),
);

pub const IMPORT_NAMES_MORE: Symbol = Symbol::Part(
    Line::Any,
    Nonterminal::Module(ModulePart::ImportNamesMore),
);

pub const DECLARATION: Symbol = Symbol::Part(
    Line::Any,
    Nonterminal::Module(ModulePart::Declaration),
);

pub const OPTIONAL_PUB: Symbol = Symbol::Part(
    Line::Any,
    Nonterminal::Method(MethodPart::OptionalPub),
);

pub const TYPE_FORM: Symbol = Symbol::Part(Line::Any, Nonterminal::Module(ModulePart::TypeForm));

pub const TRAIT_METHODS: Symbol = Symbol::Part(
    Line::Any,
    Nonterminal::Module(ModulePart::TraitMethods),
);

pub const IMPLEMENTED_TRAIT: Symbol = Symbol::Part(
    Line::Any,
    Nonterminal::Module(ModulePart::ImplementedTrait),
);

pub const METHODS: Symbol = Symbol::Part(Line::Any, Nonterminal::Method(MethodPart::Methods));

pub const METHOD: Symbol = Symbol::Part(Line::Any, Nonterminal::Method(MethodPart::Method));

pub const TYPE_PARAMETERS: Symbol = Symbol::Part(
    Line::Any,
    Nonterminal::Type(TypePart::TypeParameters),
);

pub const ENUM_MEMBERS: Symbol = Symbol::Part(
    Line::Any,
    Nonterminal::Module(ModulePart::EnumMembers),
);

pub const OBJECT_FORM: Symbol = Symbol::Part(
    Line::Any,
    Nonterminal::Module(ModulePart::ObjectForm),
);

pub const OBJECT_MEMBERS: Symbol = Symbol::Part(
    Line::Any,
    Nonterminal::Module(ModulePart::ObjectMembers),
);

pub const FIELD_DECLARATION: Symbol = Symbol::Part(
    Line::Any,
    Nonterminal::Module(ModulePart::FieldDeclaration),
);

pub const CONSTRUCTOR: Symbol = Symbol::Part(
    Line::Any,
    Nonterminal::Module(ModulePart::Constructor),
);

pub const OPTIONAL_MUT: Symbol = Symbol::Part(
    Line::Any,
    Nonterminal::Method(MethodPart::OptionalMut),
);

pub const FULL_TYPE: Symbol = Symbol::Part(Line::Any, Nonterminal::Type(TypePart::FullType));

pub const CONSTRUCTOR_TYPES: Symbol = Symbol::Part(
    Line::Any,
    Nonterminal::Type(TypePart::ConstructorTypes),
);

pub const OPTIONAL_ASYNC: Symbol = Symbol::Part(
    Line::Any,
    Nonterminal::Method(MethodPart::OptionalAsync),
);

pub const METHOD_KIND: Symbol = Symbol::Part(
    Line::Any,
    Nonterminal::Method(MethodPart::MethodKind),
);

pub const PARAMETERS: Symbol = Symbol::Part(Line::Any, Nonterminal::Method(MethodPart::Parameters));

pub const METHOD_RESULT: Symbol = Symbol::Part(
    Line::Any,
    Nonterminal::Method(MethodPart::MethodResult),
);

pub const BLOCK: Symbol = Symbol::Part(Line::Any, Nonterminal::Statement(StatementPart::Block));

pub const PARAMETERS_MORE: Symbol = Symbol::Part(
    Line::Any,
    Nonterminal::Method(MethodPart::ParametersMore),
);

pub const PARAMETER: Symbol = Symbol::Part(Line::Any, Nonterminal::Method(MethodPart::Parameter));

pub const PARAMETERS_REST: Symbol = Symbol::Part(
    Line::Any,
    Nonterminal::Method(MethodPart::ParametersRest),
);

pub const TRAIT_METHOD: Symbol = Symbol::Part(
    Line::Any,
    Nonterminal::Module(ModulePart::TraitMethod),
);

pub const TRAIT_METHOD_KIND: Symbol = Symbol::Part(
    Line::Any,
    Nonterminal::Method(MethodPart::TraitMethodKind),
);

pub const BARE_TYPE: Symbol = Symbol::Part(Line::Any, Nonterminal::Type(TypePart::BareType));

pub const TYPE_ARGUMENTS: Symbol = Symbol::Part(
    Line::Any,
    Nonterminal::Type(TypePart::TypeArguments),
);

pub const TUPLE_TYPE_REST: Symbol = Symbol::Part(
    Line::Any,
    Nonterminal::Type(TypePart::TupleTypeRest),
);

pub const TYPE_ARGUMENTS_REST: Symbol = Symbol::Part(
    Line::Any,
    Nonterminal::Type(TypePart::TypeArgumentsRest),
);

pub const TYPE_ARGUMENTS_MORE: Symbol = Symbol::Part(
    Line::Any,
    Nonterminal::Type(TypePart::TypeArgumentsMore),
);

pub const TYPE_PARAMETER: Symbol = Symbol::Part(
    Line::Any,
    Nonterminal::Type(TypePart::TypeParameter),
);

pub const TYPE_PARAMETERS_REST: Symbol = Symbol::Part(
    Line::Any,
    Nonterminal::Type(TypePart::TypeParametersRest),
);

pub const TYPE_PARAMETERS_MORE: Symbol = Symbol::Part(
    Line::Any,
    Nonterminal::Type(TypePart::TypeParametersMore),
);

pub const BOUNDS: Symbol = Symbol::Part(Line::Any, Nonterminal::Type(TypePart::Bounds));

pub const BOUNDS_REST: Symbol = Symbol::Part(Line::Any, Nonterminal::Type(TypePart::BoundsRest));

pub const CONSTRUCTOR_TYPES_REST: Symbol = Symbol::Part(
    Line::Any,
    Nonterminal::Type(TypePart::ConstructorTypesRest),
);

pub const CONSTRUCTOR_TYPES_MORE: Symbol = Symbol::Part(
    Line::Any,
    Nonterminal::Type(TypePart::ConstructorTypesMore),
);

pub const STATEMENTS: Symbol = Symbol::Part(
    Line::Any,
    Nonterminal::Statement(StatementPart::Statements),
);

pub const STATEMENT: Symbol = Symbol::Part(
    Line::Any,
    Nonterminal::Statement(StatementPart::Statement),
);

pub const MORE_STATEMENTS: Symbol = Symbol::Part(
    Line::Any,
    Nonterminal::Statement(StatementPart::MoreStatements),
);

pub const NEW_LINE_STATEMENT: Symbol = Symbol::Part(
    Line::Fresh,
    Nonterminal::Statement(StatementPart::Statement),
);

pub const MUTABLE: Symbol = Symbol::Part(Line::Any, Nonterminal::Statement(StatementPart::Mutable));

pub const LET_NAME: Symbol = Symbol::Part(
    Line::Any,
    Nonterminal::Statement(StatementPart::LetName),
);

pub const LET_TYPE: Symbol = Symbol::Part(
    Line::Any,
    Nonterminal::Statement(StatementPart::LetType),
);

pub const EXPRESSION: Symbol = Symbol::Part(
    Line::Any,
    Nonterminal::Statement(StatementPart::Expression),
);

pub const JUMP: Symbol = Symbol::Part(Line::Any, Nonterminal::Statement(StatementPart::Jump));

pub const OPERAND: Symbol = Symbol::Part(Line::Any, Nonterminal::Operand(OperandPart::Operand));

pub const AFTER_OPERAND: Symbol = Symbol::Part(
    Line::Any,
    Nonterminal::Statement(StatementPart::AfterOperand),
);

pub const RETURN_REST: Symbol = Symbol::Part(
    Line::Any,
    Nonterminal::Statement(StatementPart::ReturnRest),
);

pub const SAME_LINE_EXPRESSION: Symbol = Symbol::Part(
    Line::Same,
    Nonterminal::Statement(StatementPart::Expression),
);

pub const CHAIN_REST: Symbol = Symbol::Part(
    Line::Any,
    Nonterminal::Statement(StatementPart::ChainRest),
);

pub const NAME_REST: Symbol = Symbol::Part(Line::Any, Nonterminal::Operand(OperandPart::NameRest));

pub const LINKS: Symbol = Symbol::Part(Line::Any, Nonterminal::Operand(OperandPart::Links));

pub const UNNAMED_OPERAND: Symbol = Symbol::Part(
    Line::Any,
    Nonterminal::Operand(OperandPart::UnnamedOperand),
);

pub const RECOVER_REST: Symbol = Symbol::Part(
    Line::Any,
    Nonterminal::Operand(OperandPart::RecoverRest),
);

pub const CONSTANT_REST: Symbol = Symbol::Part(
    Line::Any,
    Nonterminal::Operand(OperandPart::ConstantRest),
);

pub const PRIMARY: Symbol = Symbol::Part(Line::Any, Nonterminal::Operand(OperandPart::Primary));

pub const ARGUMENTS: Symbol = Symbol::Part(Line::Any, Nonterminal::Operand(OperandPart::Arguments));

pub const LINK: Symbol = Symbol::Part(Line::Any, Nonterminal::Operand(OperandPart::Link));

pub const LINK_REST: Symbol = Symbol::Part(Line::Any, Nonterminal::Operand(OperandPart::LinkRest));

pub const CONSTRUCTOR_ARGUMENTS: Symbol = Symbol::Part(
    Line::Any,
    Nonterminal::Operand(OperandPart::ConstructorArguments),
);

pub const AFTER_CONSTANT: Symbol = Symbol::Part(
    Line::Any,
    Nonterminal::Operand(OperandPart::AfterConstant),
);

pub const QUALIFIED_REST: Symbol = Symbol::Part(
    Line::Any,
    Nonterminal::Operand(OperandPart::QualifiedRest),
);

pub const TEXT_REST: Symbol = Symbol::Part(Line::Any, Nonterminal::Operand(OperandPart::TextRest));

pub const PARENTHESIS_REST: Symbol = Symbol::Part(
    Line::Any,
    Nonterminal::Operand(OperandPart::ParenthesisRest),
);

pub const ITEMS: Symbol = Symbol::Part(Line::Any, Nonterminal::Operand(OperandPart::Items));

pub const CONDITIONAL: Symbol = Symbol::Part(
    Line::Any,
    Nonterminal::Statement(StatementPart::Conditional),
);

pub const CHAIN: Symbol = Symbol::Part(Line::Any, Nonterminal::Statement(StatementPart::Chain));

pub const ARM: Symbol = Symbol::Part(Line::Any, Nonterminal::Statement(StatementPart::Arm));

pub const ARMS: Symbol = Symbol::Part(Line::Any, Nonterminal::Statement(StatementPart::Arms));

pub const TUPLE_REST: Symbol = Symbol::Part(
    Line::Any,
    Nonterminal::Operand(OperandPart::TupleRest),
);

pub const ITEMS_REST: Symbol = Symbol::Part(
    Line::Any,
    Nonterminal::Operand(OperandPart::ItemsRest),
);

pub const ARGUMENTS_REST: Symbol = Symbol::Part(
    Line::Any,
    Nonterminal::Operand(OperandPart::ArgumentsRest),
);

pub const NAMED_OR_NOT: Symbol = Symbol::Part(
    Line::Any,
    Nonterminal::Operand(OperandPart::NamedOrNot),
);

pub const UNNAMED_EXPRESSION: Symbol = Symbol::Part(
    Line::Any,
    Nonterminal::Statement(StatementPart::UnnamedExpression),
);

pub const NAMED_REST: Symbol = Symbol::Part(
    Line::Any,
    Nonterminal::Operand(OperandPart::NamedRest),
);

pub const NAMED_MORE: Symbol = Symbol::Part(
    Line::Any,
    Nonterminal::Operand(OperandPart::NamedMore),
);

pub const ELSE_REST: Symbol = Symbol::Part(
    Line::Any,
    Nonterminal::Statement(StatementPart::ElseRest),
);

pub const ELSE_BRANCH: Symbol = Symbol::Part(
    Line::Any,
    Nonterminal::Statement(StatementPart::ElseBranch),
);

pub const PATTERN: Symbol = Symbol::Part(Line::Any, Nonterminal::Pattern(PatternPart::Pattern));

pub const GUARD: Symbol = Symbol::Part(Line::Any, Nonterminal::Statement(StatementPart::Guard));

pub const ARM_VALUE: Symbol = Symbol::Part(
    Line::Any,
    Nonterminal::Statement(StatementPart::ArmValue),
);

pub const ALTERNATIVE: Symbol = Symbol::Part(
    Line::Any,
    Nonterminal::Pattern(PatternPart::Alternative),
);

pub const PATTERN_REST: Symbol = Symbol::Part(
    Line::Any,
    Nonterminal::Pattern(PatternPart::PatternRest),
);

pub const PATTERN_TEXT_REST: Symbol = Symbol::Part(
    Line::Any,
    Nonterminal::Pattern(PatternPart::PatternTextRest),
);

pub const CONSTRUCTOR_PATTERN_REST: Symbol = Symbol::Part(
    Line::Any,
    Nonterminal::Pattern(PatternPart::ConstructorPatternRest),
);

pub const TUPLE_PATTERN_REST: Symbol = Symbol::Part(
    Line::Any,
    Nonterminal::Pattern(PatternPart::TuplePatternRest),
);

pub const FIELD_PATTERN: Symbol = Symbol::Part(
    Line::Any,
    Nonterminal::Pattern(PatternPart::FieldPattern),
);

pub const FIELD_PATTERNS_REST: Symbol = Symbol::Part(
    Line::Any,
    Nonterminal::Pattern(PatternPart::FieldPatternsRest),
);

pub const PATTERNS_REST: Symbol = Symbol::Part(
    Line::Any,
    Nonterminal::Pattern(PatternPart::PatternsRest),
);

pub const PATTERNS_MORE: Symbol = Symbol::Part(
    Line::Any,
    Nonterminal::Pattern(PatternPart::PatternsMore),
);

pub const FIELD_PATTERNS_MORE: Symbol = Symbol::Part(
    Line::Any,
    Nonterminal::Pattern(PatternPart::FieldPatternsMore),
);
