// A period in which the coordinator of view 0, box 1, proposes and everything arrives.
ghost use Rattle.std.specs.Prelude.{◌<◌};

use crate::boxes::Group;
use crate::steps::{arrive, tick};
use frame::lengths::LONGEST_FRAME;

// N ticks with m readings, and N - 1 each of Proposes, Acks, of which those after the deciding one are ignored, and Decides.
pub fn period<const N: usize>(group: Group<N>, m: usize) -> Group<N>
    requires { 0 < N }
{
    let Group {
        mut replicas,
        mut command,
    } = group;
    let mut proposed = [0u8; LONGEST_FRAME];
    let mut decided = [0u8; LONGEST_FRAME];
    let mut sent = [0u8; LONGEST_FRAME];
    let coordinator = tick(replicas[0], m, &mut proposed, &mut command);
    replicas[0] = coordinator.replica;
    let proposal = coordinator.frame;
    // By place: a part of an array of N is not lent by generated proofs.
    for j in 1..N {
        let other = tick(replicas[j], m, &mut sent, &mut command);
        replicas[j] = other.replica;
    }
    let mut decision = 0;
    for j in 1..N {
        let other = arrive(replicas[j], &proposed, proposal, &mut sent, &mut command);
        replicas[j] = other.replica;
        let coordinator = arrive(replicas[0], &sent, other.frame, &mut decided, &mut command);
        replicas[0] = coordinator.replica;
        decision = decision.max(coordinator.frame);
    }
    for j in 1..N {
        let other = arrive(replicas[j], &decided, decision, &mut sent, &mut command);
        replicas[j] = other.replica;
    }
    Group { replicas, command }
}
