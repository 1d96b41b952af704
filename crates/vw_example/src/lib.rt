//! An example of a caller: it runs a design over a stimulus, both as texts in memory, and knows what it got. In the
//! field: a client, verified against its library.
#![tactic(auto)]

ghost use Rattle.std.specs.Prelude.{◌≡◌, IfOk};
ghost use Rattle.vw_example.specs.SimulateStatuses.{SimulateStatuses};

use std::alloc::{AllocError, Global};
use vw_outside::{Held, MemShelf, MemSink, Name};
use vw_top::{alone, call_statuses, sim_statuses};

/// How a call ended, and what it wrote.
#[derive(Drop)]
pub struct Simulated {
    pub status: u8,
    pub out: Vec<u8>,
    pub err: Vec<u8>,
}

/// The name of these bytes.
fn owned_name(alloc: Global, bytes: &[u8]) -> Result<Name, AllocError>
    ensures { IfOk result (λ name. name ≡ bytes.now) }
{
    Ok(Name::of(bytes.to_vec(alloc)?))
}

/// Runs `sim` over two texts in memory. After status 0, out is the trace of the design over the stimulus. After 1, the
/// design text has no design that runs, and after 5, the stimulus has a fault; then err is the message, and out is
/// empty. Besides these only 7, 8 and 9 may come, and then out is a front of the trace, where the texts have one. Where
/// there is no memory for the whole message, the call ends with an error.
pub fn simulate(alloc: Global, design: Vec<u8>, stimulus: Vec<u8>) -> Result<Simulated, AllocError>
    ensures { IfOk result (λ simulated.
        SimulateStatuses design.items stimulus.items simulated.out.items simulated.err.items
        simulated.status) }
{
    let files = vec![in alloc;
        Held::make(owned_name(alloc, b"design")?, design),
        Held::make(owned_name(alloc, b"stimulus")?, stimulus),
    ]?;
    let words = vec![in alloc;
        owned_name(alloc, b"sim")?,
        owned_name(alloc, b"design")?,
        owned_name(alloc, b"stimulus")?,
    ]?;
    let mut shelf = MemShelf::new(files, 65_536, Vec::new(alloc));
    let mut out = MemSink::new(alloc, 65_536, Vec::new(alloc));
    let mut err = MemSink::new(alloc, 65_536, Vec::new(alloc));
    let Some(status) = alone(alloc, &words, &mut shelf, &mut out, &mut err) else {
        unreachable!()
    };
    call_statuses();
    sim_statuses();
    if err.faults > 0 {
        return Err(AllocError);
    }
    Ok(Simulated {
        status,
        out: out.bytes().to_vec(alloc)?,
        err: err.bytes().to_vec(alloc)?,
    })
}
