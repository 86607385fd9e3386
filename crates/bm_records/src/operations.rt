//! Kinds of primitives and of parsers' operations, by their names in JSON.
ghost use Rattle.std.specs.Prelude.{◌≡◌, nat_eq};
ghost use Rattle.std.specs.List.{starts_with};
ghost use Rattle.std.specs.Str.{bytes_eq};
ghost use Rattle.bm_records.specs.Operations.{begins_left_out, is_named_left_out, is_left_out_primitive, primitive_kind, parser_op_kind};

/// The kind of a primitive.
#[derive(Clone, Copy)]
pub(crate) enum PrimitiveKind {
    Assign,
    AddHeader,
    RemoveHeader,
    AssignHeader,
    Drop,
    Count,
    GenerateDigest,
    NoOp,
    LeftOut,
    Unknown,
}

// For many names cheaper to check than `==`, which borrows both texts once more.
pub(crate) fn is(text: &str, name: &str) -> bool
    ensures { result ≡ bytes_eq text.now name.now }
{
    text == name
}

fn begins_with(op: &str, beginning: &str) -> bool
    ensures { result ≡ starts_with nat_eq op.now beginning.now }
{
    op.as_bytes().starts_with(beginning.as_bytes())
}

fn begins_left_out(op: &str) -> bool
    ensures { result ≡ begins_left_out op.now }
{
    begins_with(op, "clone")
        || begins_with(op, "register_")
        || begins_with(op, "assign_union")
        || begins_with(op, "_jump")
}

fn is_named_left_out(op: &str) -> bool
    ensures { result ≡ is_named_left_out op.now }
{
    is(op, "resubmit")
        || is(op, "recirculate")
        || is(op, "execute_meter")
        || is(op, "push")
        || is(op, "pop")
        || is(op, "assign_header_stack")
        || is(op, "remove_union")
}

fn is_left_out_primitive(op: &str) -> bool
    ensures { result ≡ is_left_out_primitive op.now }
{
    begins_left_out(op) || is_named_left_out(op)
}

#[tactic(auto, unfolding(crate::specs::Operations::primitive_kind))]
pub(crate) fn primitive_kind(op: &str) -> PrimitiveKind
    ensures { result ≡ primitive_kind op.now }
{
    if is(op, "assign") {
        PrimitiveKind::Assign
    } else if is(op, "add_header") {
        PrimitiveKind::AddHeader
    } else if is(op, "remove_header") {
        PrimitiveKind::RemoveHeader
    } else if is(op, "assign_header") {
        PrimitiveKind::AssignHeader
    } else if is(op, "mark_to_drop") || is(op, "drop") {
        PrimitiveKind::Drop
    } else if is(op, "count") {
        PrimitiveKind::Count
    } else if is(op, "generate_digest") {
        PrimitiveKind::GenerateDigest
    } else if is(op, "no_op") {
        PrimitiveKind::NoOp
    } else if is_left_out_primitive(op) {
        PrimitiveKind::LeftOut
    } else {
        PrimitiveKind::Unknown
    }
}

/// The kind of a parser's operation.
#[derive(Clone, Copy)]
pub(crate) enum ParserOpKind {
    Extract,
    Set,
    LeftOut,
    Unknown,
}

pub(crate) fn parser_op_kind(op: &str) -> ParserOpKind
    ensures { result ≡ parser_op_kind op.now }
{
    if is(op, "extract") {
        ParserOpKind::Extract
    } else if is(op, "set") {
        ParserOpKind::Set
    } else if is(op, "extract_VL") || is(op, "verify") {
        ParserOpKind::LeftOut
    } else {
        ParserOpKind::Unknown
    }
}
