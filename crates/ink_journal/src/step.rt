//! What stands at the front of a file, and what a byte of it leads to.
ghost use Rattle.std.specs.Prelude.{◌≡◌, ◌↔◌, ℕ, ◌+◌, ◌*◌, ◌/◌, ◌<◌, ◌≤◌, None, Some, IsTrue, slice_get, IfSome, IfNone};
ghost use Rattle.ink_journal.specs.File.{front};
ghost use Rattle.ink_journal.specs.declared.step.Awaited.TheVariants as awaited;
ghost use Rattle.ink_journal.specs.Reading.{IsOpen, Leads, LeadsNowhere, worth, digit_behind};

/// The mark of a journal's file, and the number of its format.
pub(crate) const FRONT: [u8; 5] = [b'I', b'N', b'K', b'J', 1];

/// A byte of a number, which has four.
#[derive(Clone, Copy)]
pub enum Digit {
    First,
    Second,
    Third,
    Last,
}

/// What the next byte is part of. A number is what its bytes before this one are.
#[derive(Clone, Copy)]
pub enum Awaited {
    /// The front, at this index.
    Front(usize),
    /// The count of the entries.
    Count {
        place: Digit,
        number: u32,
    },
    /// An entry, with which so many are left.
    Entry {
        left: u32,
        place: Digit,
        number: u32,
    },
}

/// Where a byte leads, and the entry that it ends.
#[derive(Clone, Copy)]
pub(crate) struct Step {
    pub next: Awaited,
    pub ended: Option<u32>,
}

impl Digit {
    /// What a number that ends with this byte has to be multiplied by in the whole one.
    fn worth(self) -> u64
        ensures { result ≡ worth self }
    {
        match self {
            Digit::First => 1 << 24,
            Digit::Second => 1 << 16,
            Digit::Third => 1 << 8,
            Digit::Last => 1,
        }
    }

    /// The byte behind this one.
    fn next(self) -> Option<Digit>
        ensures { result ≡ digit_behind self }
    {
        match self {
            Digit::First => Some(Digit::Second),
            Digit::Second => Some(Digit::Third),
            Digit::Third => Some(Digit::Last),
            Digit::Last => None,
        }
    }
}

/// Whether the front has this byte there.
fn is_front(index: usize, byte: u8) -> bool
    ensures { IsTrue result ↔ (slice_get front index ≡ Some byte) }
{
    match FRONT.get(index) {
        Some(expected) => *expected == byte,
        None => false,
    }
}

/// The front at the next index, or the count behind it.
#[tactic(auto, using(crate::proofs::Front::front_open, crate::proofs::Front::front_ends, crate::proofs::Front::count_open))]
fn behind_front(index: usize, byte: u8) -> Option<Step>
    ensures some { IfSome result (λ step. (most : ℕ) → Leads most (awaited.Front index) byte step.next step.ended) }
    ensures open { IfSome result (λ step. (most : ℕ) → IsOpen most step.next) }
    ensures none { IfNone result ((most : ℕ) → LeadsNowhere most (awaited.Front index) byte) }
{
    if !is_front(index, byte) {
        return None;
    }
    if index + 1 < FRONT.len() {
        return Some(Step {
            next: Awaited::Front(index + 1),
            ended: None,
        });
    }
    Some(Step {
        next: Awaited::Count {
            place: Digit::First,
            number: 0,
        },
        ended: None,
    })
}

/// The number with one byte more, where a whole one that is at most `most` begins so.
fn appended(place: Digit, number: u32, byte: u8, most: u32) -> Option<u32>
    ensures some { IfSome result (λ value. (value ≡ number * 256 + byte) × (value ≤ most / worth place)) }
    ensures none { IfNone result (most / worth place < number * 256 + byte) }
{
    let value = u64::from(number) * 256 + u64::from(byte);
    if value > u64::from(most) / place.worth() {
        return None;
    }
    Some(value as u32)
}

/// Behind a byte of the count, which is at most `most`.
fn behind_count(place: Digit, number: u32, byte: u8, most: u32) -> Option<Step>
    ensures some { IfSome result (λ step. Leads most (awaited.Count place number) byte step.next step.ended) }
    ensures open { IfSome result (λ step. IsOpen most step.next) }
    ensures none { IfNone result (LeadsNowhere most (awaited.Count place number) byte) }
{
    let number = appended(place, number, byte, most)?;
    match place.next() {
        Some(place) => Some(Step {
            next: Awaited::Count { place, number },
            ended: None,
        }),
        None => Some(Step {
            next: Awaited::Entry {
                left: number,
                place: Digit::First,
                number: 0,
            },
            ended: None,
        }),
    }
}

/// Behind a byte of an entry.
fn behind_entry(left: u32, place: Digit, number: u32, byte: u8) -> Option<Step>
    ensures some { IfSome result (λ step. (most : ℕ) → Leads most (awaited.Entry left place number) byte step.next step.ended) }
    ensures open { IfSome result (λ step. (most : ℕ) → IsOpen most step.next) }
    ensures none { IfNone result ((most : ℕ) → LeadsNowhere most (awaited.Entry left place number) byte) }
{
    if left == 0 {
        return None;
    }
    let number = appended(place, number, byte, u32::MAX)?;
    match place.next() {
        Some(place) => Some(Step {
            next: Awaited::Entry {
                left,
                place,
                number,
            },
            ended: None,
        }),
        None if number == 0 => None,
        None => Some(Step {
            next: Awaited::Entry {
                left: left - 1,
                place: Digit::First,
                number: 0,
            },
            ended: Some(number),
        }),
    }
}

/// Where a byte leads, in a file of at most `most` entries. None exactly where no file goes on with it.
pub(crate) fn behind(here: Awaited, byte: u8, most: u32) -> Option<Step>
    ensures some { IfSome result (λ step. Leads most here byte step.next step.ended) }
    ensures open { IfSome result (λ step. IsOpen most step.next) }
    ensures none { IfNone result (LeadsNowhere most here byte) }
{
    match here {
        Awaited::Entry {
            left,
            place,
            number,
        } => behind_entry(left, place, number, byte),
        Awaited::Front(index) => behind_front(index, byte),
        Awaited::Count { place, number } => behind_count(place, number, byte, most),
    }
}
