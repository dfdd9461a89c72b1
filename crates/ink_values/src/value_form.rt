//! Which form of a value a node is, over the nodes below it.
use crate::parts::{
    Arguments, ArmParts, Item, Piece, arguments_of, arms_of, given_up, no_arguments, pieces_of,
    plain, plain_items, statements_of, unlabelled,
};
use ink_base::BorrowKind;
use ink_forms::{Binding, Choice, Identifier, IntegerId, Literal, Made, NameId, Operator};
use ink_grammar::{
    FiveChildren, FourChildren, Keyword, Mark, Node, OneChild, Shape, Terminal, ThreeChildren,
    TwoChildren,
};
use ink_lexicon::{
    Surface, borrow_kind, empty_literal, identifier, integer, integer_literal, is_panic,
    is_written, made_of, name, operator_of, token_of,
};
use std::alloc::AllocError;

/// A value without others in it.
#[derive(Clone, Copy)]
pub(crate) enum Alone {
    Lit(Literal),
    Var(NameId),
    SelfValue,
    /// `@name`.
    SelfField(NameId),
    Break,
    Next,
    /// `return` without a value.
    ReturnNil,
}

/// What is made of one value.
#[derive(Clone, Copy)]
pub(crate) enum Over {
    Statement,
    /// A statement whose value is given up.
    GivenUp,
    Loop,
    Return,
    Throw,
    Borrow(BorrowKind),
    Try,
    Recover,
    /// The field or method of this name, without arguments.
    Named { place: u32, name: NameId },
    /// The part of a tuple.
    Part { place: u32, part: IntegerId },
}

/// What is made of two values.
#[derive(Clone, Copy)]
pub(crate) enum Both {
    Set,
    Swap,
    Operate(Operator),
}

/// What is made of a list of values.
#[derive(Clone, Copy)]
pub(crate) enum Listed {
    Arr,
    Panic,
    Fn(NameId),
    Static {
        place: u32,
        owner: NameId,
        name: NameId,
    },
}

/// What a new object is of.
#[derive(Clone, Copy)]
pub(crate) enum Constructed {
    Plain(Made),
    /// A constructor of an enum, whose own place is its name.
    Of { owner: NameId, name: Identifier },
}

/// What stands on one side of a choice.
#[derive(Clone, Copy)]
pub(crate) enum Side {
    /// The value of a node.
    Value(u32),
    /// The value of a node, which is given up.
    GivenUp(u32),
    /// A literal or a `break` that the table adds.
    Literal(Literal),
    Break,
}

/// A choice between true and false: where what the table adds stands, and what the choice is made of.
#[derive(Clone, Copy)]
pub(crate) struct Decision {
    pub place: u32,
    pub choice: Choice,
    pub condition: u32,
    pub on_true: Side,
    pub on_false: Side,
}

/// Two values with a sign between them: where that stands, and what is made of them.
#[derive(Clone, Copy)]
pub(crate) struct Pair {
    pub both: Both,
    pub place: u32,
    pub first: u32,
    pub second: u32,
}

/// `p += e` and its like. The place is made twice.
#[derive(Clone, Copy)]
pub(crate) struct Update {
    pub operator: Operator,
    pub place: u32,
    pub updated: u32,
    pub value: u32,
}

/// A variable, with the node of its type, which may be nothing, and that of its value.
#[derive(Clone, Copy)]
pub(crate) struct Bound {
    pub binding: Binding,
    pub annotation: u32,
    pub value: u32,
}

/// A method of a value, and where its name stands.
#[derive(Clone, Copy)]
pub(crate) struct MethodCall {
    pub name: NameId,
    pub place: u32,
    pub receiver: u32,
}

/// A form of values with a list, and the nodes of the values in it.
#[derive(Drop)]
pub(crate) enum Composed {
    Listed(Listed, Vec<Item>),
    New(Constructed, Arguments),
    Call(MethodCall, Vec<Item>),
    Match { scrutinee: u32, arms: Vec<ArmParts> },
    Block { end: u32, statements: Vec<Item> },
    /// A text, and what is joined to it.
    Text { first: Literal, rest: Vec<Piece> },
}

/// A form of values, and the nodes of the values in it.
#[derive(Drop)]
pub(crate) enum ValueForm {
    Alone(Alone),
    Over { over: Over, operand: Item },
    Both(Pair),
    Update(Update),
    Let(Bound),
    /// A choice between true and false. That of a `while` stands in a loop.
    Decide(Decision),
    Composed(Composed),
}

/// A token as a value.
fn form_of_leaf(surface: &Surface, token: Terminal) -> ValueForm {
    match token.shape {
        Shape::Name => ValueForm::Alone(Alone::Var(name(surface, token))),
        Shape::Field => ValueForm::Alone(Alone::SelfField(name(surface, token))),
        Shape::Constant => {
            let made = Constructed::Plain(made_of(surface, token));
            ValueForm::Composed(Composed::New(made, no_arguments(surface)))
        }
        Shape::Integer | Shape::Hexadecimal => {
            ValueForm::Alone(Alone::Lit(integer_literal(surface, token)))
        }
        Shape::Keyword(keyword) => ValueForm::Alone(form_of_keyword(keyword)),
        _ => ValueForm::Alone(Alone::Lit(Literal::Nil)),
    }
}

/// A keyword as a value.
fn form_of_keyword(keyword: Keyword) -> Alone {
    match keyword {
        Keyword::True => Alone::Lit(Literal::Bool(true)),
        Keyword::False => Alone::Lit(Literal::Bool(false)),
        Keyword::SelfWord => Alone::SelfValue,
        Keyword::Break => Alone::Break,
        Keyword::Next => Alone::Next,
        _ => Alone::Lit(Literal::Nil),
    }
}

/// What a node that stands before arguments makes.
fn constructed_of(surface: &Surface, named: u32) -> Constructed {
    match surface.module.node(named) {
        Some(Node::Two(TwoChildren::Qualified, _, owner, constructor)) => Constructed::Of {
            owner: name(surface, token_of(surface.module, owner)),
            name: identifier(surface, token_of(surface.module, constructor)),
        },
        _ => Constructed::Plain(made_of(surface, token_of(surface.module, named))),
    }
}

/// The type that a link stands behind, where it is static: a name with a capital letter that is no constructor.
fn owner_of(surface: &Surface, base: u32) -> Option<NameId> {
    let token = token_of(surface.module, base);
    if !matches!(token.shape, Shape::Constant) {
        return None;
    }
    match made_of(surface, token) {
        Made::Named(name) => Some(name),
        _ => None,
    }
}

/// A word and a value behind it, or a value and what is selected of it.
fn form_over_one(surface: &Surface, form: TwoChildren, a: u32, b: u32) -> ValueForm {
    let (over, operand) = match form {
        TwoChildren::Throw => (Over::Throw, b),
        TwoChildren::Borrow => (
            Over::Borrow(borrow_kind(token_of(surface.module, a).shape)),
            b,
        ),
        TwoChildren::Try => (Over::Try, b),
        TwoChildren::Recover => (Over::Recover, b),
        TwoChildren::TupleItem => {
            let token = token_of(surface.module, b);
            let place = token.start;
            let part = integer(surface, token);
            (Over::Part { place, part }, a)
        }
        TwoChildren::Return if is_written(surface.module, b) => (Over::Return, b),
        TwoChildren::Return => return ValueForm::Alone(Alone::ReturnNil),
        _ => return ValueForm::Alone(Alone::Lit(Literal::Nil)),
    };
    let operand = plain(operand);
    ValueForm::Over { over, operand }
}

/// A call of a method of the module, or of `panic`.
fn called(surface: &Surface, token: Terminal) -> Listed {
    if is_panic(surface, token) {
        Listed::Panic
    } else {
        Listed::Fn(name(surface, token))
    }
}

/// A link without arguments: a static method of the type that stands before it, or a field or method of a value.
fn linked(surface: &Surface, base: u32, named: u32) -> ValueForm {
    let token = token_of(surface.module, named);
    let place = token.start;
    let name = name(surface, token);
    match owner_of(surface, base) {
        Some(owner) => {
            let listed = Listed::Static { place, owner, name };
            ValueForm::Composed(Composed::Listed(listed, Vec::new(surface.alloc)))
        }
        None => ValueForm::Over {
            over: Over::Named { place, name },
            operand: plain(base),
        },
    }
}

/// A text of parts and embedded expressions. Before an embedded expression stands an empty text.
fn text_of(surface: &Surface, list: u32) -> Result<Composed, AllocError> {
    let mut rest = pieces_of(surface, list)?;
    if let Some(Piece::Part(part)) = rest.first() {
        let first = *part;
        rest.remove(0);
        return Ok(Composed::Text { first, rest });
    }
    let first = empty_literal(surface);
    Ok(Composed::Text { first, rest })
}

/// A value of two nodes with a list in it.
fn composed_of_two(
    surface: &Surface,
    form: TwoChildren,
    a: u32,
    list: u32,
) -> Result<Option<Composed>, AllocError> {
    match form {
        TwoChildren::Call => {
            let listed = called(surface, token_of(surface.module, a));
            let items = plain_items(surface, list)?;
            Ok(Some(Composed::Listed(listed, items)))
        }
        TwoChildren::Array => {
            let items = plain_items(surface, list)?;
            Ok(Some(Composed::Listed(Listed::Arr, items)))
        }
        TwoChildren::Construct => {
            let arguments = arguments_of(surface, list)?;
            Ok(Some(Composed::New(constructed_of(surface, a), arguments)))
        }
        TwoChildren::Text => {
            let text = text_of(surface, list)?;
            Ok(Some(text))
        }
        _ => Ok(None),
    }
}

/// A value of two nodes.
fn form_of_two(
    surface: &Surface,
    number: u32,
    form: TwoChildren,
    a: u32,
    b: u32,
) -> Result<ValueForm, AllocError> {
    if let Some(composed) = composed_of_two(surface, form, a, b)? {
        return Ok(ValueForm::Composed(composed));
    }
    match form {
        TwoChildren::Qualified => {
            let made = constructed_of(surface, number);
            Ok(ValueForm::Composed(Composed::New(made, no_arguments(surface))))
        }
        TwoChildren::Loop => Ok(ValueForm::Over {
            over: Over::Loop,
            operand: given_up(b),
        }),
        TwoChildren::Member => Ok(linked(surface, a, b)),
        _ => Ok(form_over_one(surface, form, a, b)),
    }
}

/// A write to a place.
fn assigned(surface: &Surface, updated: u32, sign: u32, value: u32) -> ValueForm {
    let token = token_of(surface.module, sign);
    let place = token.start;
    let both = match token.shape {
        Shape::Mark(Mark::Equals) => Both::Set,
        Shape::Mark(Mark::Swap) => Both::Swap,
        _ => {
            return ValueForm::Update(Update {
                operator: operator_of(surface, token),
                place,
                updated,
                value,
            });
        }
    };
    ValueForm::Both(Pair {
        both,
        place,
        first: updated,
        second: value,
    })
}

/// Two operands with an operator between them. `and` and `or` are choices by their left operand.
fn operated(surface: &Surface, first: u32, sign: u32, second: u32) -> ValueForm {
    let token = token_of(surface.module, sign);
    let place = token.start;
    match token.shape {
        Shape::Keyword(Keyword::And) => ValueForm::Decide(Decision {
            place,
            choice: Choice::And,
            condition: first,
            on_true: Side::Value(second),
            on_false: Side::Literal(Literal::Bool(false)),
        }),
        Shape::Keyword(Keyword::Or) => ValueForm::Decide(Decision {
            place,
            choice: Choice::Or,
            condition: first,
            on_true: Side::Literal(Literal::Bool(true)),
            on_false: Side::Value(second),
        }),
        _ => ValueForm::Both(Pair {
            both: Both::Operate(operator_of(surface, token)),
            place,
            first,
            second,
        }),
    }
}

/// A link with arguments: a static method of the type that stands before it, or a method of a value.
fn linked_call(
    surface: &Surface,
    receiver: u32,
    named: u32,
    list: u32,
) -> Result<Composed, AllocError> {
    let token = token_of(surface.module, named);
    let place = token.start;
    let name = name(surface, token);
    let items = plain_items(surface, list)?;
    match owner_of(surface, receiver) {
        Some(owner) => {
            let listed = Listed::Static { place, owner, name };
            Ok(Composed::Listed(listed, items))
        }
        None => {
            let called = MethodCall {
                name,
                place,
                receiver,
            };
            Ok(Composed::Call(called, items))
        }
    }
}

/// A value of three nodes with a list in it.
fn composed_of_three(
    surface: &Surface,
    is_given_up: bool,
    form: ThreeChildren,
    children: [u32; 3],
) -> Result<Option<Composed>, AllocError> {
    let [a, b, c] = children;
    match form {
        ThreeChildren::Block => {
            let end = token_of(surface.module, c).start;
            let statements = statements_of(surface, is_given_up, b)?;
            Ok(Some(Composed::Block { end, statements }))
        }
        ThreeChildren::MemberCall => {
            let call = linked_call(surface, a, b, c)?;
            Ok(Some(call))
        }
        ThreeChildren::Match => {
            let scrutinee = b;
            let arms = arms_of(surface, c)?;
            Ok(Some(Composed::Match { scrutinee, arms }))
        }
        ThreeChildren::Pair => {
            let made = Constructed::Plain(Made::Tuple2);
            let arguments = unlabelled(surface, &[b, c])?;
            Ok(Some(Composed::New(made, arguments)))
        }
        _ => Ok(None),
    }
}

/// A value of three nodes.
fn form_of_three(
    surface: &Surface,
    is_given_up: bool,
    form: ThreeChildren,
    start: u32,
    children: [u32; 3],
) -> Result<ValueForm, AllocError> {
    let [a, b, c] = children;
    if let Some(composed) = composed_of_three(surface, is_given_up, form, children)? {
        return Ok(ValueForm::Composed(composed));
    }
    match form {
        ThreeChildren::Assign => Ok(assigned(surface, a, b, c)),
        ThreeChildren::Binary => Ok(operated(surface, a, b, c)),
        ThreeChildren::While => Ok(ValueForm::Decide(Decision {
            place: start,
            choice: Choice::While,
            condition: b,
            on_true: Side::GivenUp(c),
            on_false: Side::Break,
        })),
        _ => Ok(ValueForm::Alone(Alone::Lit(Literal::Nil))),
    }
}

/// An `if`, without or with what stands behind its `else`.
fn conditional(
    surface: &Surface,
    start: u32,
    condition: u32,
    block: u32,
    otherwise: u32,
) -> ValueForm {
    let (on_true, on_false) = if is_written(surface.module, otherwise) {
        (Side::Value(block), Side::Value(otherwise))
    } else {
        (Side::GivenUp(block), Side::Literal(Literal::Nil))
    };
    ValueForm::Decide(Decision {
        place: start,
        choice: Choice::If,
        condition,
        on_true,
        on_false,
    })
}

/// What a `let` declares, by its `mut` and its name.
fn binding_of(surface: &Surface, mutable: u32, named: u32) -> Binding {
    let token = token_of(surface.module, named);
    if matches!(token.shape, Shape::Underscore) {
        return Binding::Wildcard;
    }
    let name = name(surface, token);
    if is_written(surface.module, mutable) {
        Binding::Mutable(name)
    } else {
        Binding::Fixed(name)
    }
}

/// A statement that is a value, which may be given up.
fn stated(is_given_up: bool, operand: u32) -> ValueForm {
    let over = if is_given_up {
        Over::GivenUp
    } else {
        Over::Statement
    };
    let operand = plain(operand);
    ValueForm::Over { over, operand }
}

/// The form of a node, whose value may be given up. What is no value is nil.
pub(crate) fn form_of_value(
    surface: &Surface,
    is_given_up: bool,
    number: u32,
) -> Result<ValueForm, AllocError> {
    match surface.module.node(number) {
        Some(Node::Leaf(token)) => Ok(form_of_leaf(surface, token)),
        Some(Node::One(OneChild::Statement, _, operand)) => Ok(stated(is_given_up, operand)),
        Some(Node::Two(form, _, a, b)) => form_of_two(surface, number, form, a, b),
        Some(Node::Three(form, start, a, b, c)) => form_of_three(
            surface,
            is_given_up,
            form,
            start,
            [a, b, c],
        ),
        Some(Node::Four(FourChildren::If, start, _, a, b, c)) => {
            Ok(conditional(surface, start, a, b, c))
        }
        Some(Node::Four(FourChildren::Triple, _, _, a, b, c)) => {
            let made = Constructed::Plain(Made::Tuple3);
            let arguments = unlabelled(surface, &[a, b, c])?;
            Ok(ValueForm::Composed(Composed::New(made, arguments)))
        }
        Some(Node::Five(FiveChildren::Let, _, _, mutable, named, annotation, value)) => {
            let binding = binding_of(surface, mutable, named);
            Ok(ValueForm::Let(Bound {
                binding,
                annotation,
                value,
            }))
        }
        _ => Ok(ValueForm::Alone(Alone::Lit(Literal::Nil))),
    }
}
