//! In which way an instruction is wrong.

/// Why an instruction can't be made as it stands.
#[derive(Clone, Copy, Debug, PartialEq, Eq)]
pub enum Wrong {
    /// An operand holds no value.
    Empty,
    /// A value isn't of a kind that the instruction takes.
    Kind,
    /// The process has no such object.
    Object,
    /// There is no such register, field, constant, method, row or instruction.
    Absent,
}
