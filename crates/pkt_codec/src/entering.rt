//! The store of a packet that enters.
ghost use Rattle.std.specs.Prelude.{◌≡◌};
ghost use Rattle.bm_pipeline.specs.Validity.{IsValid};
ghost use Rattle.program_spec.specs.Stores.{opened, entering};
ghost use Rattle.pkt_codec.specs.Room.{IsOfSize};

use crate::parsing::assign_if;
use bm_expr::Store;
use bm_pipeline::Pipeline;
use bm_pipeline::program::Program;

// Makes metadata valid, all other headers invalid, and each field 0.
fn open_headers(program: &Program, store: &mut Store)
    requires valid { IsValid program.now }
    requires size { IsOfSize program.now store.old }
    ensures opened { store.new ≡ opened program.now }
    ensures size { IsOfSize program.now store.new }
{
    store.clear();
    for header in program.headers.as_slice() {
        store.set_valid(header.place.header, header.metadata);
    }
}

/// Makes a store of just the program's size that of a packet of so many bytes that enters at a port: metadata is valid,
/// all other headers are invalid, and each field is 0 but `ingress_port` and `packet_length`. It takes no memory.
pub fn enter(pipeline: &Pipeline, port: u16, bytes: usize, store: &mut Store)
    requires size { IsOfSize pipeline.now store.old }
    ensures entering { store.new ≡ entering pipeline.now port bytes }
    ensures size { IsOfSize pipeline.now store.new }
{
    let program = pipeline.program();
    open_headers(program, store);
    assign_if(
        program.standard_metadata.ingress_port,
        u128::from(port),
        store,
    );
    assign_if(
        program.standard_metadata.packet_length,
        bytes as u128,
        store,
    );
}
