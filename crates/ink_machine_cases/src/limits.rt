//! Limits by their options.

use ink_base::{Limit, Limits};

/// All limits.
static LIMITS: [Limit; 14] = [
    Limit::Source,
    Limit::Height,
    Limit::Frames,
    Limit::Objects,
    Limit::Serial,
    Limit::Array,
    Limit::Text,
    Limit::Processes,
    Limit::Mailbox,
    Limit::Futures,
    Limit::Events,
    Limit::Local,
    Limit::Slice,
    Limit::Workers,
];

/// The limit with that option.
pub fn limit_of(option: &str) -> Option<Limit> {
    for limit in LIMITS {
        if limit.option() == option {
            return Some(limit);
        }
    }
    None
}

/// The same limits, but for one. None where it may not have that number.
pub fn limits_with(limits: &Limits, changed: Limit, number: u64) -> Option<Limits> {
    let mut numbers = [1; 14];
    for limit in LIMITS {
        numbers[limit.index()] = limits.get(limit);
    }
    numbers[changed.index()] = number;
    Limits::new(numbers).ok()
}
