//! What is known of a node, by what is known of its children.
ghost use Rattle.std.specs.Prelude.{◌≡◌, ◌+◌, ℕ, OnOk, IfOk};
ghost use Rattle.ink_heights.specs.Measures as spec;

use crate::counted::{
    Kind, first_of_three, first_of_two, fourth_of_five, is_node_of_four, is_node_of_three,
    is_text_part, kind_of_two, second_of_four, second_of_three, second_of_two, third_of_four,
    third_of_three,
};
use ink_grammar::{FiveChildren, FourChildren, Shape, ThreeChildren, TwoChildren};
use std::alloc::AllocError;

/// What is known of a node.
#[derive(Clone, Copy)]
pub(crate) struct Measure {
    /// The height, and 0 where nothing in it has one.
    pub(crate) height: u32,
    /// The items of a list.
    pub(crate) items: u32,
    /// Whether it is a pattern of several alternatives.
    pub(crate) is_choice: bool,
    /// The byte of the first node in it that is too high and has no such node in it.
    pub(crate) inside: Option<u32>,
    /// The same of the node itself and what is in it.
    pub(crate) place: Option<u32>,
}

pub(crate) const NOTHING: Measure = Measure {
    height: 0,
    items: 0,
    is_choice: false,
    inside: None,
    place: None,
};

/// The sum, where it can be counted.
fn sum(a: u32, b: u32) -> Result<u32, AllocError>
    ensures { IfOk result (λ sum. sum ≡ a + b) }
{
    match a.checked_add(b) {
        Some(sum) => Ok(sum),
        None => Err(AllocError),
    }
}

/// What is known of a token that is kept.
#[tactic(auto, unfolding(crate::specs::Measures::leaf))]
pub(crate) fn leaf(shape: Shape) -> Measure
    ensures { result ≡ spec.leaf shape }
{
    if is_text_part(shape) {
        return NOTHING;
    }
    Measure {
        height: 1,
        items: 0,
        is_choice: false,
        inside: None,
        place: None,
    }
}

/// The lesser of two places.
#[tactic(auto, unfolding(crate::specs::Measures::least))]
fn least(one: Option<u32>, other: Option<u32>) -> Option<u32>
    ensures { result ≡ spec.least one other }
{
    match (one, other) {
        (None, other) => other,
        (Some(one), None) => Some(one),
        (Some(one), Some(other)) => Some(one.min(other)),
    }
}

/// What is known of two that stand in one.
#[tactic(auto, unfolding(crate::specs::Measures::over))]
fn over(one: Measure, other: Measure) -> Measure
    ensures { result ≡ spec.over one other }
{
    let height = one.height.max(other.height);
    let place = least(one.place, other.place);
    Measure {
        height,
        items: 0,
        is_choice: false,
        inside: place,
        place,
    }
}

/// The child, if it counts.
#[tactic(auto, unfolding(crate::specs::Measures::part))]
fn part(counts: bool, child: Measure) -> Measure
    ensures { result ≡ spec.part counts child }
{
    if counts { child } else { NOTHING }
}

/// The place of a node of this height.
#[tactic(auto, unfolding(crate::specs::Measures::place_of))]
fn place_of(most: u64, inside: Option<u32>, height: u32, start: u32) -> Option<u32>
    ensures { result ≡ spec.place_of most inside height start }
{
    match inside {
        Some(place) => Some(place),
        None => {
            if most < u64::from(height) {
                Some(start)
            } else {
                None
            }
        }
    }
}

/// What is known of an expression, a pattern or a type, by what stands in it.
#[tactic(auto, unfolding(crate::specs::Measures::node))]
fn node(most: u64, start: u32, within: Measure) -> Result<Measure, AllocError>
    ensures { IfOk result (λ measure. measure ≡ spec.node most start within) }
{
    let height = sum(within.height, 1)?;
    Ok(Measure {
        height,
        items: 0,
        is_choice: false,
        inside: within.place,
        place: place_of(most, within.place, height, start),
    })
}

/// What is known of a node that may be none of these.
#[tactic(auto, unfolding(crate::specs::Measures::node_or_plain))]
fn node_or_plain(
    most: u64,
    is_node: bool,
    start: u32,
    within: Measure,
) -> Result<Measure, AllocError>
    ensures { IfOk result (λ measure. measure ≡ spec.node_or_plain most is_node start within) }
{
    if is_node {
        node(most, start, within)
    } else {
        Ok(within)
    }
}

/// What is known of a text, by its parts and embedded expressions.
#[tactic(auto, unfolding(crate::specs::Measures::text))]
fn text(most: u64, start: u32, items: Measure) -> Result<Measure, AllocError>
    ensures { IfOk result (λ measure. measure ≡ spec.text most start items) }
{
    let height = sum(items.height, items.items)?;
    node(most, start, Measure { height, ..items })
}

/// What is known of the alternatives of a pattern together: of the pattern itself, where it has one.
#[tactic(auto, unfolding(crate::specs::Measures::choices))]
fn choices(pattern: Measure) -> Measure
    ensures { result ≡ spec.choices pattern }
{
    if pattern.is_choice {
        Measure {
            height: pattern.height.saturating_sub(1),
            place: pattern.inside,
            ..pattern
        }
    } else {
        pattern
    }
}

/// What is known of a pattern with one alternative more, which is one node over all its alternatives.
#[tactic(auto, unfolding(crate::specs::Measures::alternatives))]
fn alternatives(
    most: u64,
    start: u32,
    before: Measure,
    next: Measure,
) -> Result<Measure, AllocError>
    ensures { IfOk result (λ measure. measure ≡ spec.alternatives most start before next) }
{
    let measure = node(most, start, over(choices(before), next))?;
    Ok(Measure {
        is_choice: true,
        ..measure
    })
}

/// What is known of a type behind a word.
#[tactic(auto, unfolding(crate::specs::Measures::prefixed))]
fn prefixed(most: u64, start: u32, bare: Measure) -> Measure
    ensures { result ≡ spec.prefixed most start bare }
{
    Measure {
        place: place_of(most, bare.inside, bare.height, start),
        ..bare
    }
}

/// What is known of a list with one item more.
#[tactic(auto, unfolding(crate::specs::Measures::list))]
fn list(before: Measure, item: Measure) -> Result<Measure, AllocError>
    ensures { IfOk result (λ measure. measure ≡ spec.list before item) }
{
    let items = sum(before.items, 1)?;
    Ok(Measure {
        items,
        ..over(before, item)
    })
}

/// What is known of a node of two children.
#[tactic(auto, unfolding(crate::specs::Measures::two_by))]
pub(crate) fn two(
    most: u64,
    form: TwoChildren,
    start: u32,
    a: Measure,
    b: Measure,
) -> Result<Measure, AllocError>
    ensures { IfOk result (λ measure. measure ≡ spec.two most form start a b) }
{
    let within = over(part(first_of_two(form), a), part(second_of_two(form), b));
    match kind_of_two(form) {
        Kind::List => list(a, b),
        Kind::Text => text(most, start, b),
        Kind::Alternatives => alternatives(most, start, a, b),
        Kind::Prefixed => Ok(prefixed(most, start, b)),
        Kind::Node => node(most, start, within),
        Kind::Plain => Ok(within),
    }
}

/// What is known of a node of three children.
#[tactic(auto, unfolding(crate::specs::Measures::three))]
pub(crate) fn three(
    most: u64,
    form: ThreeChildren,
    start: u32,
    a: Measure,
    b: Measure,
    c: Measure,
) -> Result<Measure, AllocError>
    ensures { IfOk result (λ measure. measure ≡ spec.three most form start a b c) }
{
    let before = over(
        part(first_of_three(form), a),
        part(second_of_three(form), b),
    );
    let within = over(before, part(third_of_three(form), c));
    node_or_plain(most, is_node_of_three(form), start, within)
}

/// What is known of a node of four children, of which the first is a word, a mark or a name.
#[tactic(auto, unfolding(crate::specs::Measures::four))]
pub(crate) fn four(
    most: u64,
    form: FourChildren,
    start: u32,
    b: Measure,
    c: Measure,
    d: Measure,
) -> Result<Measure, AllocError>
    ensures { IfOk result (λ measure. measure ≡ spec.four most form start b c d) }
{
    let before = over(part(second_of_four(form), b), part(third_of_four(form), c));
    node_or_plain(most, is_node_of_four(form), start, over(before, d))
}

/// What is known of a node of five children, by the last two.
#[tactic(auto, unfolding(crate::specs::Measures::five))]
pub(crate) fn five(form: FiveChildren, d: Measure, e: Measure) -> Measure
    ensures { result ≡ spec.five form d e }
{
    over(part(fourth_of_five(form), d), e)
}
