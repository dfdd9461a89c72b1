//! What is still to be listed.
use ink_forms::{IntegerId, NameId, TextId};
use std::alloc::{AllocError, Global};

/// One thing to list.
#[derive(Clone, Copy)]
pub(crate) enum Item {
    Expr(u32),
    Pattern(u32),
    Written(u32),
    Parameter(u32),
    Word(&'static [u8]),
    Name(NameId),
    Integer(IntegerId),
    /// A text, with a quote before it.
    Text(TextId),
    /// A byte of the source, behind a sign.
    Byte(&'static [u8], u32),
}

/// The things that one node is listed as, in order. Who puts one on it gets no answer: a line for which memory was
/// wanting stays so, and says it when it is laid on the work.
#[derive(Drop)]
pub(crate) struct Line {
    items: Vec<Item>,
    /// Whether there was memory for all of it.
    is_whole: bool,
}

impl Line {
    pub fn new(alloc: Global) -> Line {
        Line {
            items: Vec::new(alloc),
            is_whole: true,
        }
    }

    pub fn put(&mut self, item: Item) {
        if self.items.push(item).is_err() {
            self.is_whole = false;
        }
    }

    pub fn word(&mut self, word: &'static [u8]) {
        self.put(Item::Word(word));
    }

    pub fn name(&mut self, name: NameId) {
        self.put(Item::Name(name));
    }

    /// The first byte of a node, and its own place where that is another.
    pub fn places(&mut self, start: u32, place: u32) {
        self.put(Item::Byte(b"@", start));
        if start != place {
            self.put(Item::Byte(b"/", place));
        }
    }

    /// Puts the things on the work, the first on top. An `AllocError` is want of memory, also of the line's.
    pub fn lay(&self, work: &mut Vec<Item>) -> Result<(), AllocError> {
        if !self.is_whole {
            return Err(AllocError);
        }
        for item in self.items.iter().rev() {
            work.push(*item)?;
        }
        Ok(())
    }
}
