//! The bytes of a P4Info.
ghost use Rattle.std.specs.Prelude.{◌≡◌, IfOk};
ghost use Rattle.p4info_model.specs.Answers.{IsReadAs};
ghost use Rattle.p4v1_wire.specs.InfoRows.{info_rows};
ghost use Rattle.p4v1_wire.specs.Rows.{fields_by};
ghost use Rattle.wire_fields.specs.Spelling.{spelling};

use crate::valid::P4Info;
use list_types::{ByteList, NoMemory};
use p4v1_wire::write_message;
use std::alloc::Global;

/// The canonical bytes of a P4Info (p4.config.v1), which are read back as the same objects.
pub fn write_info(alloc: Global, info: &P4Info) -> Result<ByteList, NoMemory>
    ensures spelling { IfOk result (λ bytes. bytes ≡ spelling (fields_by info_rows info.now)) }
    ensures read_back { IfOk result (λ bytes. IsReadAs bytes info.now) }
{
    let bytes = write_message(alloc, info.info())?;
    // Bytes in memory are fewer than 2^64, which the law of what is read back wants.
    let _length = bytes.len();
    Ok(bytes)
}
