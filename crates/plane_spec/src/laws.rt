//! Laws about planes and events. Each function's contract is the law; its body does nothing.
ghost use Rattle.plane_spec.specs.PlaneLaws.{PlanesStaySound};
ghost use Rattle.plane_spec.specs.RoleLaws.{RolesStaySound};
ghost use Rattle.plane_spec.specs.SlotLaws.{SlotsStay};

/// In each state that legal events lead to the roles are sound: a role has one primary at most.
pub fn roles_stay_sound()
    ensures law { RolesStaySound }
{}

/// In each state that legal events lead to the planes are sound: the entries stand in order, no two of one name, no
/// table has more than its size, no number and no slot is drawn twice, and the limits are kept.
pub fn planes_stay_sound()
    ensures law { PlanesStaySound }
{}

/// Of any two states that legal events lead to, one after the other, a slot of entries of the active planes is that of one
/// sequence number, a slot that an entry has now it had since its INSERT, and no entry of either has the slot of a cell of the other.
pub fn slots_stay()
    ensures law { SlotsStay }
{}
