//! Lists of a node.

/// Where the items of a list stand among the items of its kind: from `start` to before `end`.
#[derive(Clone, Copy)]
pub struct Children {
    pub start: u32,
    pub end: u32,
}
