//! Where a part of a module stands, as far as its print depends on that.

/// Where a part stands.
#[derive(Clone, Copy)]
pub enum Context {
    /// Where each expression may stand, or each pattern, type or declaration.
    Expression,
    /// Where a chain of operands may stand, but no `return`, `throw`, `break`, `next` or assignment.
    Chain,
    /// Where an operand with its words may stand, but no chain.
    Operand,
    /// Where what a link `.name` hangs on may stand.
    Base,
    /// Behind the dot of a link, where a keyword is a name.
    Name,
    /// A list of words, one behind the other.
    Words,
    /// A list whose items take a line each.
    Lines,
    /// The same between the braces of a block.
    Body,
    /// A list with dots between its items.
    Dotted,
    /// The same, with a dot behind it where it has items.
    BeforeDot,
    /// A list with commas between its items.
    Items,
    /// The same, with a comma behind it where it has items.
    BeforeComma,
    /// A list of bounds.
    Bounds,
    /// The same, with a `+` behind it where it has bounds.
    BeforePlus,
    /// What stands in a text.
    TextParts,
    /// One part of it.
    TextItem,
    /// A list in brackets, or nothing.
    Bracketed,
    /// A list in parentheses, or nothing.
    Parenthesised,
    /// The imported names in parentheses, or nothing.
    ImportNames,
    /// The bounds behind their colon, or nothing.
    Bounded,
    /// A type behind its colon, or nothing.
    Annotated,
    /// A result behind its arrow, or nothing.
    Returned,
    /// The name behind `for`, or nothing.
    Implemented,
    /// What stands behind `else`, or nothing.
    Otherwise,
    /// The condition of an arm, or nothing.
    Guard,
}

/// What kind of part it is, as far as what stands round it depends on that.
#[derive(Clone, Copy)]
pub enum Rank {
    /// A run of characters of a text.
    TextPart,
    /// A list without items.
    NoItems,
    /// What is derived as an expression, and as no chain.
    Expression,
    /// What is derived as a chain, and as no operand.
    Chain,
    /// What is derived as an operand, and as no base of a link.
    Operand,
    /// What is derived wherever its kind may stand.
    Base,
}
