//! Where a viewer is that keeps its snapshot for some packets.
ghost use Rattle.std.specs.Prelude.{◌≡◌, IfOk, IfErr};
ghost use Rattle.pub_snap.specs.Beginnings.{Begins};
ghost use Rattle.snap_worker.specs.Working.{one_more, sight_in};

use crate::stay::Stay;
use pub_snap::Viewer;

/// How many packets are run on one snapshot at most before a newer one is looked for.
const BURST: u32 = 32;

/// Where a viewer is: at no snapshot, or at one that it keeps.
pub enum Place {
    Out(Viewer),
    At(Stay),
}

// Whoever lets one go leaves its snapshot.
impl Drop for Place {
    fn drop(self) {
        drop(self.outside());
    }
}

impl Place {
    /// The viewer, at no snapshot.
    pub(crate) fn outside(self) -> Viewer
        ensures { result ≡ sight_in self }
    {
        match self {
            Place::Out(viewer) => viewer,
            Place::At(stay) => {
                let Stay {
                    view,
                    left: _,
                    refusals: _,
                } = stay;
                view.leave()
            }
        }
    }

    /// The snapshot that is kept, if it is kept for a packet more, or else one that is entered now.
    pub(crate) fn stay(self) -> Result<Stay, Viewer>
        ensures begins { IfOk result (λ stay. Begins (sight_in self).told stay.view.told) }
        ensures refusals { IfOk result (λ stay. stay.view.refusals ≡ (sight_in self).refusals) }
        ensures refused { IfErr result (λ viewer. viewer ≡ record { told = (sight_in self).told; refusals = one_more (sight_in self).refusals }) }
    {
        let viewer = match self {
            Place::Out(viewer) => viewer,
            Place::At(stay) => {
                let Stay {
                    view,
                    left,
                    refusals,
                } = stay;
                if left > 0 {
                    let left = left - 1;
                    return Ok(Stay {
                        view,
                        left,
                        refusals,
                    });
                }
                view.leave()
            }
        };
        let refusals = viewer.refusals();
        let view = viewer.enter()?;
        Ok(Stay {
            view,
            left: BURST - 1,
            refusals,
        })
    }
}
