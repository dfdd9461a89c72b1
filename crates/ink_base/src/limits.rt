//! The limits of a run: fourteen numbers, each kept in its range.
//!
//! What a run does at a limit is not known here, but for the texts of the panics.
ghost use Rattle.std.specs.Prelude.{◌≡◌, slice_set, IfErr, IfOk, OnOk};
ghost use Rattle.std.specs.Option.{option_copied};
ghost use Rattle.ink_base.specs.Limits.{index_of, greatest_of, option_word, panic_text, IsInRange, AreInRange, IsFirstOut, limit_of, default_numbers};

use std::marker::Model;

/// The limits, in the order in which their numbers stand.
#[derive(Clone, Copy)]
pub enum Limit {
    /// The bytes of a source.
    Source,
    /// The height of an expression, a pattern or a written type.
    Height,
    /// The frames of a process.
    Frames,
    /// The objects of a process that live when it makes one more.
    Objects,
    /// The objects that one process makes.
    Serial,
    /// The items of an array.
    Array,
    /// The bytes of a text that is joined from two.
    Text,
    /// The processes of a run.
    Processes,
    /// The unread messages of a process.
    Mailbox,
    /// The futures that are made in a run.
    Futures,
    /// The entries of the journal.
    Events,
    /// The steps of a process since its last event.
    Local,
    /// The steps of a slice.
    Slice,
    /// The workers.
    Workers,
}

/// The greatest number that each limit may have, in their order. The least is 1.
const GREATEST: [u64; 14] = [
    16_777_216,
    200,
    65_536,
    16_777_216,
    1 << 62,
    16_777_216,
    16_777_216,
    1_048_576,
    16_777_216,
    16_777_216,
    67_108_864,
    1 << 62,
    1_000_000_000,
    64,
];

/// The number that each limit has where none is given, in their order.
const DEFAULTS: [u64; 14] = [
    1_048_576,
    200,
    4_096,
    1_048_576,
    1 << 40,
    1_048_576,
    1_048_576,
    65_536,
    1_048_576,
    1_048_576,
    16_777_216,
    1 << 62,
    1_000,
    4,
];

impl Limit {
    /// All limits, in their order.
    pub const ALL: [Limit; 14] = [
        Limit::Source,
        Limit::Height,
        Limit::Frames,
        Limit::Objects,
        Limit::Serial,
        Limit::Array,
        Limit::Text,
        Limit::Processes,
        Limit::Mailbox,
        Limit::Futures,
        Limit::Events,
        Limit::Local,
        Limit::Slice,
        Limit::Workers,
    ];

    /// Its index among the limits, counted from 0.
    pub fn index(self) -> usize
        ensures { result ≡ index_of self }
    {
        match self {
            Limit::Source => 0,
            Limit::Height => 1,
            Limit::Frames => 2,
            Limit::Objects => 3,
            Limit::Serial => 4,
            Limit::Array => 5,
            Limit::Text => 6,
            Limit::Processes => 7,
            Limit::Mailbox => 8,
            Limit::Futures => 9,
            Limit::Events => 10,
            Limit::Local => 11,
            Limit::Slice => 12,
            Limit::Workers => 13,
        }
    }

    /// The greatest number that it may have. The least is 1.
    pub fn greatest(self) -> u64
        ensures { result ≡ greatest_of self }
    {
        GREATEST[self.index()]
    }

    /// The option by which a user gives its number.
    pub fn option(self) -> &'static str
        ensures { result.now ≡ option_word self }
    {
        match self {
            Limit::Source => "--max-source",
            Limit::Height => "--max-height",
            Limit::Frames => "--max-frames",
            Limit::Objects => "--max-objects",
            Limit::Serial => "--max-serial",
            Limit::Array => "--max-array",
            Limit::Text => "--max-text",
            Limit::Processes => "--max-processes",
            Limit::Mailbox => "--max-mailbox",
            Limit::Futures => "--max-futures",
            Limit::Events => "--max-events",
            Limit::Local => "--max-local",
            Limit::Slice => "--slice",
            Limit::Workers => "--workers",
        }
    }

    /// With which text a process panics that would pass it: `limit reached: frames`.
    ///
    /// That is so of frames, objects, serial, array, text, processes, mailbox and futures alone. Passing another limit
    /// is no panic.
    pub fn panic_text(self) -> Option<&'static str>
        ensures { option_copied result ≡ panic_text self }
    {
        match self {
            Limit::Source => None,
            Limit::Height => None,
            Limit::Frames => Some("limit reached: frames"),
            Limit::Objects => Some("limit reached: objects"),
            Limit::Serial => Some("limit reached: serial"),
            Limit::Array => Some("limit reached: array"),
            Limit::Text => Some("limit reached: text"),
            Limit::Processes => Some("limit reached: processes"),
            Limit::Mailbox => Some("limit reached: mailbox"),
            Limit::Futures => Some("limit reached: futures"),
            Limit::Events => None,
            Limit::Local => None,
            Limit::Slice => None,
            Limit::Workers => None,
        }
    }
}

/// A number is out of this limit's range.
#[derive(Clone, Copy)]
pub struct BadLimit(pub Limit);

/// A number for each limit, in its range. A contract sees the list of the numbers in the limits' order.
#[derive(Clone, Copy)]
pub struct Limits {
    numbers: [u64; 14],
}

impl Model for Limits {
    ghost use Rattle.std.specs.Prelude.{ℕ, List};
    ghost use Rattle.ink_base.specs.Limits.{AreInRange};

    ghost Value = { List ℕ };

    ghost view = { λ limits. limits.numbers };

    ghost invariant = { λ limits. AreInRange limits.numbers };

    ghost inverse = { λ numbers. record { numbers = numbers } };
}

impl Limits {
    /// The limits with these numbers, in their order. `BadLimit` exactly where one is out of its range, and the first
    /// such.
    pub fn new(numbers: [u64; 14]) -> Result<Limits, BadLimit>
        ensures numbers { IfOk result (λ limits. limits ≡ numbers) }
        ensures ok { OnOk result (AreInRange numbers) }
        ensures bad { IfErr result (λ fault. IsFirstOut numbers fault.0) }
    {
        for index in 0..14 {
            if numbers[index] < 1 || numbers[index] > GREATEST[index] {
                return Err(BadLimit(Limit::ALL[index]));
            }
        }
        Ok(Limits { numbers })
    }

    /// The limits where none is given.
    pub fn defaults() -> Limits
        ensures { result ≡ default_numbers }
    {
        Limits { numbers: DEFAULTS }
    }

    /// The limits with another number for one of them. `BadLimit` exactly where it is out of that limit's range.
    pub fn with(&self, limit: Limit, number: u64) -> Result<Limits, BadLimit>
        ensures numbers { IfOk result (λ limits. limits ≡ slice_set self.now (index_of limit) number) }
        ensures ok { OnOk result (IsInRange limit number) }
        ensures bad { IfErr result (λ fault. (fault.0 ≡ limit) × ¬ IsInRange limit number) }
    {
        if number < 1 || number > limit.greatest() {
            return Err(BadLimit(limit));
        }
        let mut numbers = self.numbers;
        numbers[limit.index()] = number;
        Ok(Limits { numbers })
    }

    /// The number of a limit.
    pub fn get(&self, limit: Limit) -> u64
        ensures number { result ≡ limit_of limit self.now }
        ensures range { IsInRange limit result }
    {
        self.numbers[limit.index()]
    }
}
