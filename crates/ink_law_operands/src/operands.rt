//! The operands of rows, as the table names them and as the machine takes them.
ghost use Rattle.ink_law_operands.specs.Judged.{ValueRowsJudge, ObjectRowsJudge, ArrayRowsTake};

/// A law on the rows that are instructions: which values a row takes is what the table says of its receiver and its
/// operands. It does nothing when it runs.
pub fn rows_judge_operands()
    // A row that only computes is wrong exactly where its values aren't those of the table, and in the same way.
    ensures values { ValueRowsJudge }

    // A row that works on objects is wrong where its operands aren't those of the table, and in the same way.
    ensures objects { ObjectRowsJudge }

    // A row of Array isn't wrong where its operands are those of the table, and the array is empty.
    ensures arrays { ArrayRowsTake }
{}
