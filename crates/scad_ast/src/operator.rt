/// An operator of two sides.
#[derive(Clone, Copy)]
pub enum BinaryOp {
    Or,
    And,
    Equal,
    NotEqual,
    Less,
    LessEqual,
    Greater,
    GreaterEqual,
    Add,
    Subtract,
    Multiply,
    Divide,
    Remainder,
}

/// An operator before its operand.
#[derive(Clone, Copy)]
pub enum UnaryOp {
    /// `-`
    Negate,
    /// `+`
    Keep,
    /// `!`
    Not,
}

/// A mark before an instance.
#[derive(Clone, Copy)]
pub enum Modifier {
    /// `*`: not evaluated.
    Disable,
    /// `%`: not evaluated.
    Background,
    /// `#`: changes nothing.
    Highlight,
    /// `!`: the whole design.
    Root,
}
