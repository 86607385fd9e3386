//! Who sees snapshots.
ghost use Rattle.std.specs.Prelude.{◌≡◌, ◌⊎◌, ◌+◌, ◌-◌, ◌^◌, min, IfOk, IfErr};
ghost use Rattle.plane_image.specs.Image.{ImageVersions};
ghost use Rattle.plane_spec.specs.Planes.{opened, applied};
ghost use Rattle.pub_snap.specs.Beginnings.{Begins};
ghost use Rattle.pub_snap.specs.Snapshots.{IsAfter, steps_in};

use crate::ruling::{Sees, ShownReader, ShownReading};
use crate::told::Told;
use plane_image::Image;
use std::marker::Model;

/// One who sees snapshots, with what it has seen or learnt of the list, and how often it was refused.
pub struct Viewer {
    pub(crate) reader: ShownReader,
    pub(crate) told: Told,
    pub(crate) refusals: u64,
}

impl Model for Viewer {
    ghost use Rattle.left_right.specs.Sides.{view as seat_view};
    ghost use Rattle.pub_snap.specs.Snapshots.{Sight, IsOf};
    ghost use Rattle.bm_expr.specs.TreeCode.{number_code, truth_code};
    ghost use Rattle.std.specs.Coded.{codes};

    ghost coded = { Prim.hlevel (codes, number_code, truth_code) };

    ghost Value = { Sight };

    ghost view = { λ v. record { told = v.told; refusals = v.refusals } };

    ghost invariant = { λ v. IsOf v.told.list (seat_view v.reader.place) };
}

/// A snapshot. It stays the same until it is left; it is not dropped.
pub struct View {
    reading: ShownReading,
    refusals: u64,
}

impl Model for View {
    ghost use Rattle.std.specs.Prelude.{◌≡◌, Some};
    ghost use Rattle.left_right.specs.Sides.{view as seat_view};
    ghost use Rattle.pub_snap.specs.Snapshots.{Scene, IsAfter};
    ghost use Rattle.bm_expr.specs.TreeCode.{number_code, truth_code};
    ghost use Rattle.std.specs.Coded.{codes};

    ghost coded = { Prim.hlevel (codes, number_code, truth_code) };

    ghost Value = { Scene };

    ghost view = { λ v. record { image = v.reading.part.value.image; told = v.reading.part.value.told; refusals = v.refusals } };

    ghost invariant = { λ v. IsAfter v.reading.part.value.image v.reading.part.value.told × (seat_view v.reading.place ≡ Some v.reading.part.value.told) };
}

// Written out, so that those who let one go need not look into it.
impl Drop for Viewer {
    fn drop(self) {
        let Self {
            reader: _reader,
            told: _told,
            refusals: _,
        } = self;
    }
}

impl Viewer {
    /// What it has seen or learnt.
    pub fn told(&self) -> &Told
        ensures { result.now ≡ self.now.told }
    {
        &self.told
    }

    /// How often it was refused.
    pub fn refusals(&self) -> u64
        ensures { result ≡ self.now.refusals }
    {
        self.refusals
    }

    /// Learns what was told of its list: later views begin with it.
    pub fn learn(&mut self, told: &Told)
        requires { told.now.list ≡ self.old.told.list }
        ensures one { (self.new.told ≡ self.old.told) ⊎ (self.new.told ≡ told.now) }
        ensures own { Begins self.old.told self.new.told }
        ensures learnt { Begins told.now self.new.told }
        ensures refusals { self.new.refusals ≡ self.old.refusals }
    {
        self.told.learn(told);
    }

    /// The image after a beginning of the list, which begins with all that was seen and learnt. It waits for nobody and takes
    /// no memory. A refusal is counted (the count stands still at 2^64 - 1), and changes nothing else.
    pub fn enter(self) -> Result<View, Viewer>
        ensures begins { IfOk result (λ view. Begins self.told view.told) }
        ensures after { IfOk result (λ view. IsAfter view.image view.told) }
        ensures refusals { IfOk result (λ view. view.refusals ≡ self.refusals) }
        ensures refused { IfErr result (λ viewer. viewer ≡ record { told = self.told; refusals = min (self.refusals + 1) (2 ^ 64 - 1) }) }
    {
        let Viewer {
            reader,
            told,
            refusals,
        } = self;
        let reading = match reader.enter_as::<Sees>() {
            Ok(reading) => reading,
            Err(reader) => {
                return Err(Viewer {
                    reader,
                    told,
                    refusals: refusals.saturating_add(1),
                });
            }
        };
        if !told.begins(&reading.get().told) {
            return Err(Viewer {
                reader: reading.leave(),
                told,
                refusals: refusals.saturating_add(1),
            });
        }
        Ok(View { reading, refusals })
    }
}

impl View {
    /// The image, which is that after the events that the view was told of.
    pub fn image(&self) -> &Image
        ensures image { result.now ≡ self.now.image }
        ensures after { result.now.now ≡ applied (opened self.now.told.start) self.now.told.events }
        ensures steps { result.now.steps ≡ steps_in self.now.told.events }
    {
        &self.reading.get().image
    }

    /// The events that it is after.
    pub fn told(&self) -> &Told
        ensures { result.now ≡ self.now.told }
    {
        &self.reading.get().told
    }

    /// The viewer, which has seen what the view was told of.
    pub fn leave(self) -> Viewer
        ensures { result ≡ record { told = self.told; refusals = self.refusals } }
    {
        let View { reading, refusals } = self;
        let told = reading.get().told.again();
        Viewer {
            reader: reading.leave(),
            told,
            refusals,
        }
    }
}
