//! What the rules look things up in, and where in a body they are asked.

use ink_crossing::Sight;
use ink_names::Tables;

/// What stays the same all the time.
#[derive(Clone, Copy)]
pub(crate) struct Room<'a> {
    pub sight: Sight<'a>,
    pub tables: &'a Tables,
}

/// Where an expression stands.
#[derive(Clone, Copy)]
pub(crate) struct Within {
    /// The byte of the word of the nearest `recover` round it.
    pub recover: Option<u32>,
    /// Whether a loop stands round it that stands in the nearest `recover`.
    pub is_in_loop: bool,
    /// The first byte of the nearest guard round it.
    pub guard: Option<u32>,
}

impl Within {
    /// The whole of a body.
    pub fn body() -> Self {
        Within {
            recover: None,
            is_in_loop: false,
            guard: None,
        }
    }

    /// Within a `recover` here, whose word stands at a byte.
    pub fn recovered(self, word: u32) -> Self {
        Within {
            recover: Some(word),
            is_in_loop: false,
            guard: self.guard,
        }
    }

    /// Within a loop here.
    pub fn looped(self) -> Self {
        Within {
            recover: self.recover,
            is_in_loop: true,
            guard: self.guard,
        }
    }

    /// Within a guard here, which starts at a byte.
    pub fn guarded(self, start: u32) -> Self {
        Within {
            recover: self.recover,
            is_in_loop: self.is_in_loop,
            guard: Some(start),
        }
    }
}
