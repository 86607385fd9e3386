//! What holds of what lanes are given. Each function's contract is the law; its body does nothing.
ghost use Rattle.tape_lanes.specs.Laws.{ItemsAreItems};

/// What records give a worker's lane are packets and meets as a worker's lane has them.
pub fn items_are_items()
    ensures { ItemsAreItems }
{}
