// A period whose Propose is lost: both others give the view up, and the next box takes over.
use crate::boxes::Group;
use crate::steps::{arrive, give_up, tick};
use frame::lengths::LONGEST_FRAME;

// Three ticks, two views given up, an Estimate, two Proposes, two Acks, of which the second is ignored, and two Decides. The first replica is the
// coordinator's; in the group given back it is that of the box that took over.
pub fn period(group: Group<3>) -> Group<3> {
    let mut lost = [0u8; LONGEST_FRAME];
    let mut estimated = [0u8; LONGEST_FRAME];
    let mut proposed = [0u8; LONGEST_FRAME];
    let mut decided = [0u8; LONGEST_FRAME];
    let mut command = group.command;
    let [first, second, third] = group.replicas;
    let s1 = tick(first, 2, &mut lost, &mut command);
    let s2 = tick(second, 2, &mut lost, &mut command);
    let s3 = tick(third, 2, &mut lost, &mut command);
    let s2 = give_up(s2.replica, &mut lost, &mut command);
    let s3 = give_up(s3.replica, &mut estimated, &mut command);
    let s2 = arrive(
        s2.replica,
        &estimated,
        s3.frame,
        &mut proposed,
        &mut command,
    );
    let size = s2.frame;
    let s1 = arrive(s1.replica, &proposed, size, &mut estimated, &mut command);
    let s3 = arrive(s3.replica, &proposed, size, &mut lost, &mut command);
    let s2 = arrive(s2.replica, &estimated, s1.frame, &mut decided, &mut command);
    let size = s2.frame;
    let s2 = arrive(s2.replica, &lost, s3.frame, &mut estimated, &mut command);
    let s1 = arrive(s1.replica, &decided, size, &mut estimated, &mut command);
    let s3 = arrive(s3.replica, &decided, size, &mut lost, &mut command);
    Group {
        replicas: [s2.replica, s3.replica, s1.replica],
        command,
    }
}
