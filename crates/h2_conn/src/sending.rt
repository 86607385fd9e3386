//! What this side sends on a stream.
ghost use Rattle.std.specs.Prelude.{◌≡◌, IfOk};
ghost use Rattle.h2_streams.specs.Streams.{stream_at};
ghost use Rattle.h2_conn.specs.Sends.{queued_on};

use crate::settings::flush;
use crate::state::State;
use h2_streams::Waiting;
use list_types::NoMemory;
use std::alloc::Global;

/// This goes out on a stream as far as the windows allow, behind what waits there.
pub(crate) fn queue(
    alloc: Global,
    conn: State,
    number: u32,
    waiting: Waiting,
    end_stream: bool,
) -> Result<State, NoMemory>
    ensures { IfOk result (λ next. next ≡ queued_on (stream_at number conn.streams) number waiting end_stream conn) }
{
    let mut conn = conn;
    let Some(stream) = conn.streams.get(number) else {
        return Ok(conn);
    };
    if stream.closing {
        return Ok(conn);
    }
    conn.streams.queue(number, waiting, end_stream)?;
    flush(alloc, &mut conn)?;
    Ok(conn)
}
