//! The classes of tokens that decide how an expression goes on, and the levels of operators.

ghost use Rattle.std.specs.Prelude.{◌≡◌, cond};
ghost use Rattle.scad_grammar.specs.Classes.{token_class, is_class_among, symbol_class, reserved_class, numeral_class, name_class, text_class, child_count_class, special_class};
ghost use Rattle.scad_grammar.specs.Faults.{left_out_classes};
ghost use Rattle.scad_grammar.specs.StatementReads.{modifier_signs, firsts_of_core};
ghost use Rattle.scad_expressions.specs.TokenClasses.{classes_of, operators_at, tighter_levels, next_looser_level, binary_signs, unary_signs, continuations};

use scad_lexer::{Reserved, Symbol, TokenKind};

/// A level of operators of two sides.
#[derive(Clone, Copy, Debug, PartialEq, Eq)]
pub enum Level {
    Or,
    And,
    Equal,
    Order,
    Sum,
    Product,
}

impl Level {
    /// How many levels have operators that bind more tightly.
    pub fn tighter_levels(self) -> u8
        ensures { result ≡ tighter_levels self }
    {
        match self {
            Level::Or => 5,
            Level::And => 4,
            Level::Equal => 3,
            Level::Order => 2,
            Level::Sum => 1,
            Level::Product => 0,
        }
    }

    /// The next level, whose operators bind less tightly; the loosest level is followed by itself.
    pub fn looser(self) -> Level
        ensures { result ≡ next_looser_level self }
    {
        match self {
            Level::Or | Level::And => Level::Or,
            Level::Equal => Level::And,
            Level::Order => Level::Equal,
            Level::Sum => Level::Order,
            Level::Product => Level::Sum,
        }
    }

    // Whether the symbol is an operator of this level.
    fn has(self, symbol: Symbol) -> bool
        ensures { result ≡ is_class_among (operators_at self) (symbol_class symbol) }
    {
        match self {
            Level::Or => matches!(symbol, Symbol::Or),
            Level::And => matches!(symbol, Symbol::And),
            Level::Equal => matches!(symbol, Symbol::Equal | Symbol::NotEqual),
            Level::Order => matches!(
                symbol,
                Symbol::Less | Symbol::LessEqual | Symbol::Greater | Symbol::GreaterEqual
            ),
            Level::Sum => matches!(symbol, Symbol::Plus | Symbol::Minus),
            Level::Product => {
                matches!(symbol, Symbol::Times | Symbol::Divide | Symbol::Remainder)
            }
        }
    }
}

/// A class of tokens.
#[derive(Clone, Copy, Debug, PartialEq, Eq)]
pub enum TokenClass {
    Name,
    /// A special name other than `$children`.
    Special,
    /// What an argument may be given by: a name, or a special name other than `$children`.
    ArgumentName,
    End,
    Word(Reserved),
    Sign(Symbol),
    /// A numeral, a text, a truth, `undef` or a special name.
    Literal,
    /// A literal or a name.
    Atom,
    /// What may go on with an expression behind an atom: an operator of two sides, `?`, `(`, `[` or `.`.
    Continuation,
    Operator(Level),
    /// An operator of any level.
    BinaryOperator,
    UnaryOperator,
    /// What may begin an index or a member.
    Suffix,
    Modifier,
    LoopWord,
    /// What may begin an expression.
    Expression,
    /// What may begin a statement.
    Statement,
    /// What may begin a body.
    Body,
    /// What this profile leaves out wherever no program goes on with it.
    LeftOut,
    /// What this profile leaves out where an expression may begin.
    LeftOutOfExpressions,
}

impl TokenClass {
    /// Whether a token is of this class.
    #[inline(always)]
    pub fn has(self, kind: &TokenKind) -> bool
        ensures { result ≡ is_class_among (classes_of self) (token_class kind.now) }
    {
        match kind {
            TokenKind::Symbol(symbol) => self.has_symbol(*symbol),
            TokenKind::Reserved(word) => self.has_word(*word),
            TokenKind::Special(bytes) => self.has_special(bytes.items() == b"children".as_slice()),
            TokenKind::Name(_) => self.has_name(),
            TokenKind::Numeral(_) => self.has_numeral(),
            TokenKind::Text(_) => self.has_text(),
            TokenKind::End => matches!(self, TokenClass::End),
        }
    }

    fn has_name(self) -> bool
        ensures { result ≡ is_class_among (classes_of self) name_class }
    {
        matches!(
            self,
            TokenClass::Name
                | TokenClass::ArgumentName
                | TokenClass::Atom
                | TokenClass::Expression
                | TokenClass::Statement
                | TokenClass::Body
        )
    }

    fn has_numeral(self) -> bool
        ensures { result ≡ is_class_among (classes_of self) numeral_class }
    {
        matches!(
            self,
            TokenClass::Literal | TokenClass::Atom | TokenClass::Expression
        )
    }

    fn has_text(self) -> bool
        ensures { result ≡ is_class_among (classes_of self) text_class }
    {
        matches!(
            self,
            TokenClass::Literal | TokenClass::Atom | TokenClass::Expression
        )
    }

    fn has_symbol(self, symbol: Symbol) -> bool
        ensures { result ≡ is_class_among (classes_of self) (symbol_class symbol) }
    {
        match self {
            TokenClass::Sign(wanted) => symbol == wanted,
            TokenClass::Operator(level) => level.has(symbol),
            TokenClass::BinaryOperator => is_binary(symbol),
            TokenClass::UnaryOperator => is_unary(symbol),
            TokenClass::Continuation => is_continuation(symbol),
            TokenClass::Suffix => matches!(symbol, Symbol::OpenBracket | Symbol::Dot),
            TokenClass::Modifier => is_mark(symbol),
            TokenClass::Expression => {
                is_unary(symbol) || matches!(symbol, Symbol::OpenParenthesis | Symbol::OpenBracket)
            }
            TokenClass::Statement | TokenClass::Body => {
                is_mark(symbol) || matches!(symbol, Symbol::Semicolon | Symbol::OpenBrace)
            }
            TokenClass::LeftOut | TokenClass::LeftOutOfExpressions => matches!(
                symbol,
                Symbol::Caret
            ),
            _ => false,
        }
    }

    fn has_word(self, word: Reserved) -> bool
        ensures { result ≡ is_class_among (classes_of self) (reserved_class word) }
    {
        match self {
            TokenClass::Word(wanted) => word == wanted,
            TokenClass::Literal | TokenClass::Atom | TokenClass::Expression => {
                matches!(word, Reserved::True | Reserved::False | Reserved::Undef)
            }
            TokenClass::LoopWord => matches!(word, Reserved::For | Reserved::IntersectionFor),
            TokenClass::Body => begins_core(word),
            TokenClass::Statement => {
                begins_core(word) || matches!(word, Reserved::Module | Reserved::Function)
            }
            TokenClass::LeftOut => is_left_out(word),
            TokenClass::LeftOutOfExpressions => {
                is_left_out(word)
                    || matches!(word, Reserved::For | Reserved::If | Reserved::Function)
            }
            _ => false,
        }
    }

    fn has_special(self, is_child_count: bool) -> bool
        ensures { result ≡ is_class_among (classes_of self)
            (cond is_child_count child_count_class special_class) }
    {
        match self {
            TokenClass::Literal | TokenClass::Atom | TokenClass::Expression => true,
            TokenClass::Special
            | TokenClass::ArgumentName
            | TokenClass::Statement
            | TokenClass::LeftOut
            | TokenClass::LeftOutOfExpressions => !is_child_count,
            _ => false,
        }
    }
}

fn is_continuation(symbol: Symbol) -> bool
    ensures { result ≡ is_class_among continuations (symbol_class symbol) }
{
    is_binary(symbol)
        || matches!(
            symbol,
            Symbol::Question | Symbol::OpenParenthesis | Symbol::OpenBracket | Symbol::Dot
        )
}

fn is_binary(symbol: Symbol) -> bool
    ensures { result ≡ is_class_among binary_signs (symbol_class symbol) }
{
    matches!(
        symbol,
        Symbol::Or
            | Symbol::And
            | Symbol::Equal
            | Symbol::NotEqual
            | Symbol::Less
            | Symbol::LessEqual
            | Symbol::Greater
            | Symbol::GreaterEqual
            | Symbol::Plus
            | Symbol::Minus
            | Symbol::Times
            | Symbol::Divide
            | Symbol::Remainder
    )
}

fn is_unary(symbol: Symbol) -> bool
    ensures { result ≡ is_class_among unary_signs (symbol_class symbol) }
{
    matches!(symbol, Symbol::Minus | Symbol::Plus | Symbol::Not)
}

fn is_mark(symbol: Symbol) -> bool
    ensures { result ≡ is_class_among modifier_signs (symbol_class symbol) }
{
    matches!(
        symbol,
        Symbol::Times | Symbol::Remainder | Symbol::Hash | Symbol::Not
    )
}

fn begins_core(word: Reserved) -> bool
    ensures { result ≡ is_class_among firsts_of_core (reserved_class word) }
{
    matches!(
        word,
        Reserved::If | Reserved::For | Reserved::IntersectionFor
    )
}

fn is_left_out(word: Reserved) -> bool
    ensures { result ≡ is_class_among left_out_classes (reserved_class word) }
{
    matches!(
        word,
        Reserved::Use | Reserved::Include | Reserved::Let | Reserved::Each
    )
}
