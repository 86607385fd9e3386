//! A publisher with its viewers.
ghost use Rattle.std.specs.Prelude.{◌≡◌, ◌≤◌, [], replicate, None, Some, IfOk};
ghost use Rattle.left_right.specs.Sides.{view};

use crate::publisher::{Publisher, show};
use crate::ruling::{ShownReader, ShownWriter, Tells};
use crate::shown::Shown;
use crate::told::{Told, begun};
use crate::viewer::Viewer;
use left_right::writer::Writer;
use list_types::NoMemory;
use p4_types::events::Start;
use plane_image::Image;
use std::alloc::Global;
use std::collections::VecDeque;
use std::sync::Wait;
use std::thread::yield_now;

// A reader that has seen nothing. It asks again where none is found.
fn reader<R: Wait>(rt: &R, writer: &ShownWriter) -> ShownReader
    ensures view { view result.place ≡ None }
    ensures table { result.place.table_id ≡ writer.now.desk.place.table_id }
{
    for _ in rt.forever() {
        if let Ok(reader) = writer.factory().reader() {
            return reader;
        }
        yield_now();
    }
    unreachable!()
}

// A viewer that has seen what the writer has.
fn viewer<R: Wait>(rt: &R, writer: &mut ShownWriter, told: &Told) -> Viewer
    requires { view writer.old.desk.place ≡ Some told.now }
    ensures viewer { result ≡ record { told = told.now; refusals = 0 } }
    ensures shown { writer.new.desk.shown ≡ writer.old.desk.shown }
    ensures log { (writer.new.log ≡ writer.old.log) × (writer.new.behind ≡ writer.old.behind) }
    ensures view { view writer.new.desk.place ≡ view writer.old.desk.place }
{
    let mut reader = reader(rt, writer);
    reader.learn::<Tells>(writer.tell::<Tells>());
    Viewer {
        reader,
        told: told.again(),
        refusals: 0,
    }
}

/// Opens a list with the start alone, and so many viewers of it, 1 to 64. It waits where `left_right` finds no place for a
/// viewer.
pub fn open<R: Wait + Drop>(
    alloc: Global,
    rt: R,
    start: &Start,
    places: usize,
) -> Result<(Publisher<R>, Vec<Viewer>), NoMemory>
    requires places { (1 ≤ places) × (places ≤ 64) }
    ensures start { IfOk result (λ r. r.0.told.start ≡ start.now) }
    ensures events { IfOk result (λ r. r.0.told.events ≡ []) }
    ensures pending { IfOk result (λ r. r.0.pending ≡ []) }
    ensures viewers { IfOk result (λ r. r.1.items ≡ replicate places (record { told = r.0.told; refusals = 0 })) }
{
    let mut viewers = Vec::with_capacity(alloc, places)?;
    let (log, told) = begun(&rt, start);
    let first = Shown {
        image: Image::open(alloc, start)?,
        told: told.again(),
    };
    let second = Shown {
        image: Image::open(alloc, start)?,
        told: told.again(),
    };
    let writer = Writer::new(alloc, first, second, places)?;
    let mut writer = show(&rt, writer);
    for _ in 0..places {
        let viewer = viewer(&rt, &mut writer, &told);
        viewers.push_reserved(viewer);
    }
    let publisher = Publisher {
        log,
        told,
        pending: VecDeque::new(alloc),
        writer,
        alloc,
        rt,
    };
    Ok((publisher, viewers))
}
