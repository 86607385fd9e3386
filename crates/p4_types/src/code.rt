//! Answers: the canonical codes, and the rules that are broken.
ghost use Rattle.std.specs.Prelude.{◌≡◌};

/// A canonical code of `google.rpc.Code`. Its number is the variant's value.
#[derive(Clone, Copy)]
pub enum Code {
    Ok = 0,
    Cancelled = 1,
    Unknown = 2,
    InvalidArgument = 3,
    NotFound = 5,
    AlreadyExists = 6,
    PermissionDenied = 7,
    ResourceExhausted = 8,
    FailedPrecondition = 9,
    Aborted = 10,
    OutOfRange = 11,
    Unimplemented = 12,
    Internal = 13,
    Unavailable = 14,
}

impl Code {
    ghost use Rattle.p4_types.specs.CodeNumber.{code_number};

    /// The code's number.
    pub fn number(self) -> u8
        ensures { result ≡ code_number self }
    {
        self as u8
    }
}

/// A rule of an update. Its number, which is told to controllers, is the variant's value.
#[derive(Clone, Copy)]
pub enum Rule {
    /// The type is INSERT, MODIFY or DELETE, and an entity is given.
    U1 = 1,
    /// The entity and what it gives are served.
    U2 = 2,
    /// The table is known.
    U3 = 3,
    /// The role may write it.
    U4 = 4,
    /// The entry may be changed.
    U5 = 5,
    /// The match is well formed.
    U6 = 6,
    /// The values of the match fit their fields.
    U7 = 7,
    /// The match is canonical, and the priority is the right one.
    U8 = 8,
    /// The action is one of the table's, with its arguments.
    U9 = 9,
    /// An entry that is inserted is absent, one that is modified or deleted is there.
    U10 = 10,
    /// What is named is there, and what goes is in no use.
    U11 = 11,
    /// There is room.
    U12 = 12,
}

impl Rule {
    ghost use Rattle.p4_types.specs.CodeNumber.{rule_number};

    /// The rule's number.
    pub fn number(self) -> u8
        ensures { result ≡ rule_number self }
    {
        self as u8
    }
}

/// The rule that an update breaks first, and the code with which it is refused.
#[derive(Clone, Copy)]
pub struct Cause {
    pub rule: Rule,
    pub code: Code,
}

/// A rule of an arbitration.
#[derive(Clone, Copy)]
pub enum ArbitrationRule {
    /// The device is this one.
    A1,
    /// The caller's session has no other role.
    A2,
    /// The configuration is one that is served.
    A3,
    /// No other session of the role bears the same election id, unless it is 0.
    A4,
    /// There are no more sessions and roles than the switch has.
    A5,
}

impl ArbitrationRule {
    ghost use Rattle.p4_types.specs.CodeNumber.{arbitration_code};

    /// The code with which an arbitration is refused that breaks the rule.
    pub fn code(self) -> Code
        ensures { result ≡ arbitration_code self }
    {
        match self {
            ArbitrationRule::A1 => Code::NotFound,
            ArbitrationRule::A2 => Code::FailedPrecondition,
            ArbitrationRule::A3 | ArbitrationRule::A4 => Code::InvalidArgument,
            ArbitrationRule::A5 => Code::ResourceExhausted,
        }
    }
}

/// A rule of a forwarding pipeline's configuration by its number: I1 to I9 of a P4Info, L1 to L15 of a program under its
/// P4Info.
#[derive(Clone, Copy)]
pub enum ConfigRule {
    Info(u8),
    Program(u8),
}
