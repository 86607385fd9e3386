//! Laws of messages on the wire, each the contract of a function that does nothing.
ghost use Rattle.p4v1_read.specs.MessageFields.{FieldsAreSpelled};
ghost use Rattle.p4v1_read.specs.RoleConfigs.{OneIdIsRead};

/// The fields that are computed are those that the bytes spell.
pub fn fields_are_spelled()
    ensures { FieldsAreSpelled }
{}

/// The configuration of a role that may write one table, computed from the definitions alone.
pub fn one_id_is_read()
    ensures { OneIdIsRead }
{}
