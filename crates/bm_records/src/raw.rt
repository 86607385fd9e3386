//! The raw records of a pipeline: what its JSON says, with references by name. A number or a form that
//! the switch does not serve stands as left out, an operation that the profile does not know by its name.
pub use bm_values::raw::{
    BinaryOperator, Expression, FieldName, Node, Part, RawField, RawLiteral, RawWidth,
    UnaryOperator,
};
use json_shapes::Name;
use list_types::List;
use p4_types::info::MatchKind;

// A record of many parts has a Drop written out, so that those who let one go need not look into it.

#[derive(Drop)]
pub struct TypeField<'a> {
    pub name: Name<'a>,
    pub width: RawWidth,
}

pub struct HeaderType<'a> {
    pub name: Name<'a>,
    pub fields: List<TypeField<'a>>,
}

impl<'a> Drop for HeaderType<'a> {
    fn drop(self) {
        let Self {
            name: _name,
            fields: _fields,
        } = self;
    }
}

#[derive(Drop)]
pub struct Header<'a> {
    pub name: Name<'a>,
    pub header_type: Name<'a>,
    pub metadata: bool,
}

#[derive(Drop)]
pub struct ErrorNumber<'a> {
    pub name: Name<'a>,
    pub number: u64,
}

/// A list of digest data, by its name or its id.
#[derive(Drop)]
pub enum LearnListName<'a> {
    Name(Name<'a>),
    Id(RawLiteral),
    LeftOut,
}

/// A primitive of an action.
#[derive(Drop)]
pub enum Primitive<'a> {
    Assign {
        target: RawField<'a>,
        value: Expression<'a>,
    },
    AddHeader(Part<Name<'a>>),
    RemoveHeader(Part<Name<'a>>),
    AssignHeader {
        target: Part<Name<'a>>,
        source: Part<Name<'a>>,
    },
    /// `mark_to_drop` and `drop`.
    Drop,
    Count {
        counter: Part<Name<'a>>,
        index: Expression<'a>,
    },
    GenerateDigest(LearnListName<'a>),
    NoOp,
    LeftOut,
    /// A primitive of a name that is not known.
    Unknown(Name<'a>),
}

/// A datum of an action.
#[derive(Drop)]
pub struct Datum {
    pub width: RawWidth,
}

pub struct Action<'a> {
    pub name: Name<'a>,
    pub id: u64,
    pub runtime_data: List<Datum>,
    pub primitives: List<Primitive<'a>>,
}

impl<'a> Drop for Action<'a> {
    fn drop(self) {
        let Self {
            name: _name,
            id: _,
            runtime_data: _runtime_data,
            primitives: _primitives,
        } = self;
    }
}

/// An operation of a parser's state.
#[derive(Drop)]
pub enum ParserOp<'a> {
    Extract(Part<Name<'a>>),
    Set {
        target: RawField<'a>,
        value: Expression<'a>,
    },
    LeftOut,
    /// An operation of a name that is not known.
    Unknown(Name<'a>),
}

/// What a transition asks of the key.
#[derive(Drop)]
pub enum MatchValue {
    Default,
    Literal(RawLiteral),
    LeftOut,
}

#[derive(Drop)]
pub struct Transition<'a> {
    pub value: MatchValue,
    pub mask: Option<RawLiteral>,
    /// Without one the packet is accepted.
    pub next_state: Option<Name<'a>>,
}

pub struct ParseState<'a> {
    pub name: Name<'a>,
    pub parser_ops: List<ParserOp<'a>>,
    pub transition_key: List<RawField<'a>>,
    pub transitions: List<Transition<'a>>,
}

impl<'a> Drop for ParseState<'a> {
    fn drop(self) {
        let Self {
            name: _name,
            parser_ops: _parser_ops,
            transition_key: _transition_key,
            transitions: _transitions,
        } = self;
    }
}

#[derive(Drop)]
pub struct Parser<'a> {
    pub init_state: Name<'a>,
    pub parse_states: List<ParseState<'a>>,
}

#[derive(Drop)]
pub struct Deparser<'a> {
    pub order: List<Name<'a>>,
}

/// A counter array; a direct one has no size.
#[derive(Drop)]
pub struct CounterArray<'a> {
    pub name: Name<'a>,
    pub is_direct: bool,
    pub size: Option<u64>,
}

/// What a calculation takes in.
#[derive(Drop)]
pub enum CalculationInput<'a> {
    Field(FieldName<'a>),
    Literal { value: RawLiteral, width: RawWidth },
    LeftOut,
}

pub struct Calculation<'a> {
    pub name: Name<'a>,
    pub algo: Name<'a>,
    pub input: List<CalculationInput<'a>>,
}

impl<'a> Drop for Calculation<'a> {
    fn drop(self) {
        let Self {
            name: _name,
            algo: _algo,
            input: _input,
        } = self;
    }
}

pub struct Checksum<'a> {
    pub name: Name<'a>,
    pub target: FieldName<'a>,
    pub calculation: Name<'a>,
    pub update: bool,
    pub verify: bool,
    pub if_cond: Option<Expression<'a>>,
}

impl<'a> Drop for Checksum<'a> {
    fn drop(self) {
        let Self {
            name: _name,
            target: _target,
            calculation: _calculation,
            update: _,
            verify: _,
            if_cond: _if_cond,
        } = self;
    }
}

pub struct LearnList<'a> {
    pub name: Name<'a>,
    pub id: u64,
    pub elements: List<RawField<'a>>,
}

impl<'a> Drop for LearnList<'a> {
    fn drop(self) {
        let Self {
            name: _name,
            id: _,
            elements: _elements,
        } = self;
    }
}

/// A field of a table's key.
#[derive(Drop)]
pub struct KeyField<'a> {
    pub kind: MatchKind,
    pub target: FieldName<'a>,
}

#[derive(Clone, Copy)]
pub enum TableKind {
    Simple,
    Indirect,
    /// `indirect_ws`
    IndirectWithSelector,
}

/// What follows a table on an outcome: `__HIT__`, `__MISS__`, or an action's name; it ends the pipeline where no node is named.
#[derive(Drop)]
pub struct NextTable<'a> {
    pub outcome: Name<'a>,
    pub node: Option<Name<'a>>,
}

#[derive(Drop)]
pub struct DefaultEntry {
    pub action_id: u64,
    pub action_data: List<RawLiteral>,
}

pub struct Table<'a> {
    pub name: Name<'a>,
    pub key: List<KeyField<'a>>,
    pub kind: TableKind,
    /// The name of its action profile, where it is indirect.
    pub action_profile: Option<Name<'a>>,
    /// The ids of its actions and their names, side by side.
    pub action_ids: List<u64>,
    pub actions: List<Name<'a>>,
    /// All that `next_tables` names, by rising outcomes.
    pub next_tables: List<NextTable<'a>>,
    pub base_default_next: Option<Name<'a>>,
    pub default_entry: Option<DefaultEntry>,
    /// Whether entries are written in the program.
    pub has_entries: bool,
}

impl<'a> Drop for Table<'a> {
    fn drop(self) {
        let Self {
            name: _name,
            key: _key,
            kind: _,
            action_profile: _action_profile,
            action_ids: _action_ids,
            actions: _actions,
            next_tables: _next_tables,
            base_default_next: _base_default_next,
            default_entry: _default_entry,
            has_entries: _,
        } = self;
    }
}

#[derive(Drop)]
pub struct Selector<'a> {
    pub input: List<RawField<'a>>,
}

#[derive(Drop)]
pub struct ActionProfile<'a> {
    pub name: Name<'a>,
    pub selector: Option<Selector<'a>>,
}

pub struct Conditional<'a> {
    pub name: Name<'a>,
    pub expression: Expression<'a>,
    pub true_next: Option<Name<'a>>,
    pub false_next: Option<Name<'a>>,
}

impl<'a> Drop for Conditional<'a> {
    fn drop(self) {
        let Self {
            name: _name,
            expression: _expression,
            true_next: _true_next,
            false_next: _false_next,
        } = self;
    }
}

#[derive(Clone, Copy)]
pub enum Gress {
    Ingress,
    Egress,
}

pub struct Pipeline<'a> {
    pub gress: Gress,
    pub init_table: Option<Name<'a>>,
    pub tables: List<Table<'a>>,
    pub action_profiles: List<ActionProfile<'a>>,
    pub conditionals: List<Conditional<'a>>,
}

impl<'a> Drop for Pipeline<'a> {
    fn drop(self) {
        let Self {
            gress: _,
            init_table: _init_table,
            tables: _tables,
            action_profiles: _action_profiles,
            conditionals: _conditionals,
        } = self;
    }
}

#[derive(Drop)]
pub struct Pipelines<'a> {
    pub ingress: Pipeline<'a>,
    pub egress: Pipeline<'a>,
}

/// A program.
pub struct RawProgram<'a> {
    pub header_types: List<HeaderType<'a>>,
    pub headers: List<Header<'a>>,
    pub errors: List<ErrorNumber<'a>>,
    pub parser: Parser<'a>,
    pub deparser: Deparser<'a>,
    pub counter_arrays: List<CounterArray<'a>>,
    pub calculations: List<Calculation<'a>>,
    pub checksums: List<Checksum<'a>>,
    pub learn_lists: List<LearnList<'a>>,
    pub actions: List<Action<'a>>,
    pub pipelines: Pipelines<'a>,
    /// Whether it lists registers, meters, extern instances, value sets, stacks or unions.
    pub lists_left_out: bool,
}

impl<'a> Drop for RawProgram<'a> {
    fn drop(self) {
        let Self {
            header_types: _header_types,
            headers: _headers,
            errors: _errors,
            parser: _parser,
            deparser: _deparser,
            counter_arrays: _counter_arrays,
            calculations: _calculations,
            checksums: _checksums,
            learn_lists: _learn_lists,
            actions: _actions,
            pipelines: _pipelines,
            lists_left_out: _,
        } = self;
    }
}
