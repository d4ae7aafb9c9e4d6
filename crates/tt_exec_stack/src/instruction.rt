//! The instructions on the stack alone, by family. Apple TrueType Reference Manual, "Instruction set".

/// The instructions that compute.
#[derive(Clone, Copy)]
pub enum Arithmetic {
    Add,
    Sub,
    Div,
    Mul,
    Abs,
    Neg,
    Floor,
    Ceiling,
    Round,
    Nround,
    Max,
    Min,
}

/// The instructions with the result 1 for true or 0 for false.
#[derive(Clone, Copy)]
pub enum Logic {
    Lt,
    Lteq,
    Gt,
    Gteq,
    Eq,
    Neq,
    Odd,
    Even,
    And,
    Or,
    Not,
}

/// The instructions that manage the stack.
#[derive(Clone, Copy)]
pub enum Managing {
    Dup,
    Pop,
    Clear,
    Swap,
    Depth,
    Cindex,
    Mindex,
    Roll,
}
