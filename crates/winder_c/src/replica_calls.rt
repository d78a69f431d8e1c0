// Making a replica, and its three steps. A replica is its record.
ghost use Rattle.std.specs.Prelude.{◌≡◌, length};
ghost use Rattle.octets.specs.Areas.{over};
ghost use Rattle.transmitters.specs.Conversion.{converted_row};
ghost use Rattle.transmitters.specs.Numbers.{readings_of};
ghost use Rattle.replica.specs.Calls.{tick_outcome, give_up_outcome, arrive_outcome, fresh_of};
ghost use Rattle.records.specs.Recording.{record_answer, recorded};
ghost use Rattle.winder.specs.Answers.{number_of};
ghost use Rattle.winder.specs.ReplicaAreas.{settings_of, step_at, Steps};

// Makes a fresh replica.
#[unsafe(no_mangle)]
pub extern "C" fn winder_make(
    n: usize,
    m: usize,
    p: usize,
    a: &[i32; 36],
    l: &[i32; 24],
    c: &[i32; 24],
    k: &[i32; 24],
    low: &[i32; 4],
    high: &[i32; 4],
    start: &[i32; 6],
    boxes: u8,
    own: u8,
    to_decide: u8,
    to_propose: u8,
    replica: &mut [u8],
) -> u32
    ensures answer { result ≡ number_of (record_answer (settings_of n m p a.now l.now c.now k.now low.now high.now start.now boxes own to_decide to_propose) (length replica.old)) }
    ensures replica { replica.new ≡ over (recorded (fresh_of (settings_of n m p a.now l.now c.now k.now low.now high.now start.now boxes own to_decide to_propose)) (length replica.old)) replica.old }
{
    winder::replica_calls::winder_make(
        n, m, p, a, l, c, k, low, high, start, boxes, own, to_decide, to_propose, replica,
    )
}

// A tick with readings, each by its kind and its bits.
#[unsafe(no_mangle)]
pub extern "C" fn winder_tick(
    replica: &mut [u8],
    kinds: &[u8; 4],
    bits: &[u32; 4],
    frame: &mut [u8],
    command: &mut [u8],
    lengths: &mut [usize; 2],
) -> u32
    ensures { Steps replica.old
        (step_at replica.old (λ x. tick_outcome x (converted_row (readings_of kinds.now bits.now)) (length frame.old) (length command.old)))
        result replica.new lengths.new frame.old frame.new command.old command.new }
{
    winder::replica_calls::winder_tick(replica, kinds, bits, frame, command, lengths)
}

// The view is given up.
#[unsafe(no_mangle)]
pub extern "C" fn winder_give_up(
    replica: &mut [u8],
    frame: &mut [u8],
    command: &mut [u8],
    lengths: &mut [usize; 2],
) -> u32
    ensures { Steps replica.old
        (step_at replica.old (λ x. give_up_outcome x (length frame.old) (length command.old)))
        result replica.new lengths.new frame.old frame.new command.old command.new }
{
    winder::replica_calls::winder_give_up(replica, frame, command, lengths)
}

// Bytes that arrive as a frame.
#[unsafe(no_mangle)]
pub extern "C" fn winder_arrive(
    replica: &mut [u8],
    bytes: &[u8],
    frame: &mut [u8],
    command: &mut [u8],
    lengths: &mut [usize; 2],
) -> u32
    ensures { Steps replica.old
        (step_at replica.old (λ x. arrive_outcome x bytes.now (length frame.old) (length command.old)))
        result replica.new lengths.new frame.old frame.new command.old command.new }
{
    winder::replica_calls::winder_arrive(replica, bytes, frame, command, lengths)
}
