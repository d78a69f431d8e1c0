// Recording a replica, and returning from its record. A replica is its record.
ghost use Rattle.std.specs.Prelude.{◌≡◌, length};
ghost use Rattle.octets.specs.Areas.{over};
ghost use Rattle.winder.specs.ReplicaAreas.{recording_refusal, recording, returning_refusal, returning};

use crate::answers::{refusal_number, result_number};
use records::lengths::RECORD;
use records::reading::read;
use records::recording::{copy, write};
use records::returning::stay_up;
use refusal::Refusal;

// Writes the record of a replica to the start of an area: the very bytes, once they are seen to be a record.
pub fn winder_record(replica: &[u8], area: &mut [u8]) -> u32
    ensures answer { result ≡ recording_refusal replica.now (length area.old) }
    ensures area { area.new ≡ over (recording replica.now (length area.old)) area.old }
{
    if let Err(refusal) = read(replica) {
        return refusal_number(refusal);
    }
    if area.len() < RECORD {
        return refusal_number(Refusal::Area);
    }
    copy(replica, area);
    0
}

// Returns from a record after so many missed periods, to the start of an area.
pub fn winder_return(stored: &[u8], missed: u32, replica: &mut [u8]) -> u32
    ensures answer { result ≡ returning_refusal missed stored.now (length replica.old) }
    ensures replica { replica.new ≡ over (returning missed stored.now (length replica.old)) replica.old }
{
    let parsed = match read(stored) {
        Ok(parsed) => parsed,
        Err(refusal) => return refusal_number(refusal),
    };
    if replica.len() < RECORD {
        return refusal_number(Refusal::Area);
    }
    match stay_up(parsed, missed) {
        Ok(up) => result_number(write(up, replica)),
        Err(refusal) => refusal_number(refusal),
    }
}
