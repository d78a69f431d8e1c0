// Recording a replica, and returning from its record. A replica is its record.
ghost use Rattle.std.specs.Prelude.{◌≡◌, length};
ghost use Rattle.octets.specs.Areas.{over};
ghost use Rattle.winder.specs.ReplicaAreas.{recording_refusal, recording, returning_refusal, returning};

// Writes the record of a replica to the start of an area: the very bytes, once they are seen to be a record.
#[unsafe(no_mangle)]
pub extern "C" fn winder_record(replica: &[u8], area: &mut [u8]) -> u32
    ensures answer { result ≡ recording_refusal replica.now (length area.old) }
    ensures area { area.new ≡ over (recording replica.now (length area.old)) area.old }
{
    winder::record_calls::winder_record(replica, area)
}

// Returns from a record after so many missed periods, to the start of an area.
#[unsafe(no_mangle)]
pub extern "C" fn winder_return(stored: &[u8], missed: u32, replica: &mut [u8]) -> u32
    ensures answer { result ≡ returning_refusal missed stored.now (length replica.old) }
    ensures replica { replica.new ≡ over (returning missed stored.now (length replica.old)) replica.old }
{
    winder::record_calls::winder_return(stored, missed, replica)
}
