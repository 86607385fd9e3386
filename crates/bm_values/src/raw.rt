//! Values, literals, widths and expressions: what a program's JSON says, with references by name. A number or a form that
//! the switch does not serve stands as left out, an operation that the profile does not know by its name.
use json_shapes::Name;
use std::marker::Model;

/// What is served, or a form that is left out.
#[derive(Drop)]
pub enum Part<T> {
    Served(T),
    LeftOut,
}

/// A width in bits, 1 to 128; a greater width is left out.
pub type RawWidth = Part<u32>;

/// The width of a field in a header type; that of a varbit is left out too.
#[derive(Drop)]
pub struct FieldWidth {
    pub width: RawWidth,
}

/// A literal of at most 128 bits; a longer one is left out.
pub type RawLiteral = Part<u128>;

/// A field of a header, by the names of both.
#[derive(Drop)]
pub struct FieldName<'a> {
    pub header: Name<'a>,
    pub field: Name<'a>,
}

/// A field; one of a stack or a union, and what is looked up ahead, is left out.
pub type RawField<'a> = Part<FieldName<'a>>;

/// An operator with one operand.
#[derive(Clone, Copy)]
pub enum UnaryOperator {
    BitNot,
    Not,
    /// `d2b`
    ToTruth,
    /// `b2d`
    ToNumber,
}

/// An operator with two operands.
#[derive(Clone, Copy)]
pub enum BinaryOperator {
    Add,
    Subtract,
    Multiply,
    ShiftLeft,
    ShiftRight,
    BitAnd,
    BitOr,
    BitXor,
    Equal,
    NotEqual,
    Less,
    LessOrEqual,
    Greater,
    GreaterOrEqual,
    And,
    Or,
}

/// An expression. Contracts see it as a `Tree` of specs/Trees.antt.
#[cycle(expression)]
#[derive(Drop)]
pub struct Expression<'a> {
    pub node: Node<'a>,
}

/// The root of an expression.
#[cycle(expression)]
#[derive(Drop)]
pub enum Node<'a> {
    Field(FieldName<'a>),
    Literal(RawLiteral),
    Truth(bool),
    /// The action's datum with this index.
    Datum(u64),
    /// `valid` of a header.
    Valid(Part<Name<'a>>),
    Unary(UnaryOperator, Box<Expression<'a>>),
    Binary(BinaryOperator, Box<Expression<'a>>, Box<Expression<'a>>),
    /// `?`: a condition, what is chosen where it holds, and what is chosen where not.
    Choice(Box<Expression<'a>>, Box<Expression<'a>>, Box<Expression<'a>>),
    LeftOut,
    /// An operation of a name that is not known.
    Unknown(Name<'a>),
}

impl<'a> Model for Expression<'a> {
    ghost use Rattle.bm_values.specs.Trees.{Tree};
    ghost use Rattle.bm_values.specs.TreeCode.{tree_code};

    ghost Value = { Tree };

    ghost coded = { tree_code };

    ghost use Rattle.bm_values.specs.Nodes.{tree_of_node};

    ghost view = { λ e. tree_of_node e.node };

    ghost use Rattle.bm_values.specs.Trees.{height};

    ghost size = { height };

    ghost use Rattle.bm_values.specs.TreesFall.{falls};

    ghost size_decreases = { λ e h. falls e.node };
}
