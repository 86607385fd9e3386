//! Laws about packets in planes. Each function's contract is the law; its body does nothing.
ghost use Rattle.packet_spec.specs.Laws.{WalkEnds, WalkIsOne, NoNodeTwice, DroppedSendsNothing, LeavesWithinLimit, HitsAreThere};
ghost use Rattle.packet_spec.specs.Worked.{RouterForwards, RouterDrops, RouterWraps, LabLearns, LabTakesFirst, GroupChoosesFirst, GroupChoosesSecond, SetChoosesSecond, ShortFrameLeaves, ControllerIsTold, ControllerHeaderTooShort, LongerLeaves, LongestLeaves, TooLongIsDropped, FloodCopies, AbsentGroupDrops};

/// A walk through the tables of a valid program ends, in one way alone, and comes to no node twice.
pub fn walks_end_in_one_way()
    ensures ends { WalkEnds }
    ensures one { WalkIsOne }
    ensures once { NoNodeTwice }
{}

/// A packet that is dropped sends nothing, and what leaves at a port has at most 10,240 bytes.
pub fn what_leaves()
    ensures dropped { DroppedSendsNothing }
    ensures limit { LeavesWithinLimit }
{}

/// Everything that a packet hits is an entry or a cell of the plane.
pub fn hits_are_there()
    ensures { HitsAreThere }
{}

/// Packets of the router, the lab and the bridge, followed to the end.
pub fn worked_packets()
    ensures router_forwards { RouterForwards }
    ensures router_drops { RouterDrops }
    ensures router_wraps { RouterWraps }
    ensures lab_learns { LabLearns }
    ensures lab_takes_first { LabTakesFirst }
    ensures group_chooses_first { GroupChoosesFirst }
    ensures group_chooses_second { GroupChoosesSecond }
    ensures set_chooses_second { SetChoosesSecond }
    ensures short_frame_leaves { ShortFrameLeaves }
    ensures controller_is_told { ControllerIsTold }
    ensures controller_header_too_short { ControllerHeaderTooShort }
    ensures longer_leaves { LongerLeaves }
    ensures longest_leaves { LongestLeaves }
    ensures too_long_is_dropped { TooLongIsDropped }
    ensures flood_copies { FloodCopies }
    ensures absent_group_drops { AbsentGroupDrops }
{}
