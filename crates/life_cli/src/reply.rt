// What a command has to say.
ghost use Rattle.life_cli.specs.Ends.{HandsOut};

use crate::Status;
use crate::stop::{Ending, Stop};
use life_base::{Sink, write_whole};

/// How a command ends, and the bytes that it writes to out and to err.
#[derive(Drop)]
pub struct Reply {
    pub status: Status,
    pub out: Vec<u8>,
    pub err: Vec<u8>,
}

/// Writes the reply's text for out, and gives back the rest of the reply.
pub fn hand_out<O: Sink>(reply: Reply, out: &mut O) -> Result<Ending, Stop>
    ensures { HandsOut reply
        (record { taken = O.taken out.old; faults = O.faults out.old })
        (record { taken = O.taken out.new; faults = O.faults out.new }) result }
{
    match write_whole(out, &reply.out) {
        Ok(()) => Ok(Ending {
            status: reply.status,
            err: reply.err,
        }),
        Err(_) => Err(Stop::WriteFault),
    }
}
