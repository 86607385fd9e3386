//! What holds of tapes with lanes of bytes and of their reading. Each function does nothing: its contract is the law.
ghost use Rattle.tape_spec.specs.Items.{NoneBeginsAnother};
ghost use Rattle.tape_spec.specs.ReadingLaws.{ReadAreItems, ItemsAreRead, BadPlaceIsExact, BeyondIsExact, BeyondIsFound};

/// A tape ends where its end record does, and has one list of items.
pub fn no_tape_begins_another()
    ensures { NoneBeginsAnother }
{}

/// Reading gives only what the bytes are the tape of.
pub fn read_is_tape()
    ensures { ReadAreItems }
{}

/// Each tape within the limit is read.
pub fn tape_is_read()
    ensures { ItemsAreRead }
{}

/// The bad place is the length of the longest front with which some tape begins.
pub fn bad_is_exact()
    ensures { BadPlaceIsExact }
{}

/// The limit of items is passed only where an item begins behind as many.
pub fn too_many_is_exact()
    ensures { BeyondIsExact }
{}

/// It is passed wherever one does.
pub fn too_many_is_found()
    ensures { BeyondIsFound }
{}
