//! Laws of messages on the wire, each the contract of a function that does nothing.
ghost use Rattle.wire_fields.specs.Laws.{OneMessage, SpellingSpells, NoFieldAtFault, FieldWithoutFault, RestOfMessage, NoMessageAtFault};

/// Bytes spell one list of fields at most.
pub fn one_message()
    ensures { OneMessage }
{}

/// The canonical spelling of fields spells these fields.
pub fn spelling_spells()
    ensures { SpellingSpells }
{}

/// Where there is a fault, the bytes begin with no field.
pub fn no_field_at_fault()
    ensures { NoFieldAtFault }
{}

/// Where there is no fault and a byte is left, the bytes begin with a field.
pub fn field_without_fault()
    ensures { FieldWithoutFault }
{}

/// A message whose first fields were read is these fields and what the bytes that are left spell.
pub fn rest_of_message()
    ensures { RestOfMessage }
{}

/// Bytes that come to a fault after some fields are no message.
pub fn no_message_at_fault()
    ensures { NoMessageAtFault }
{}
