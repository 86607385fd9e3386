//! What the bridge's P4Info is. The function does nothing: its contract is the law.
ghost use Rattle.bridge_program.specs.Spelled.{BridgeIsSpelled};

/// The canonical bytes of the bridge's P4Info.
pub fn bridge_is_spelled()
    ensures { BridgeIsSpelled }
{}
