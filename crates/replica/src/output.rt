// What a step writes to the areas that it is lent: a frame, and a command.
ghost use Rattle.std.specs.Prelude.{◌≡◌, true, ◌≤◌, length};
ghost use Rattle.law.specs.Settings.{refusal};
ghost use Rattle.octets.specs.Areas.{over};
ghost use Rattle.frame.specs.Sizes.{sizes_ok};
ghost use Rattle.frame.specs.Kinds.{kind_ok};
ghost use Rattle.frame.specs.Format.{frame_bytes};
ghost use Rattle.frame.specs.Lengths.{longest_frame, longest_command};
ghost use Rattle.replica.specs.Frames.{as_carried, issued_bytes};
ghost use Rattle.replica.specs.Rules.{command_of};

use crate::{Held, Settings};
use estimate::Estimate;
use frame::Frame;

// Writes a frame, with its readings as frames carry them, and returns its length.
pub(crate) fn send(n: usize, m: usize, f: Frame, area: &mut [u8]) -> usize
    requires { (sizes_ok n m ≡ true) × (kind_ok f.kind ≡ true) × (longest_frame ≤ length area.old) }
    ensures { (result ≡ length (frame_bytes n m (as_carried m f))) × (area.new ≡ over (frame_bytes n m (as_carried m f)) area.old) }
{
    let readings = readings::normalise(m, f.estimate.readings);
    let estimate = Estimate {
        readings,
        ..f.estimate
    };
    frame::write(n, m, Frame { estimate, ..f }, area).unwrap()
}

// Writes the command of the estimate held where it is issued, and returns its length.
pub(crate) fn issue(settings: &Settings, issues: bool, held: Held, area: &mut [u8]) -> usize
    requires { (refusal settings.now.law ≡ 0) × (longest_command ≤ length area.old) }
    ensures { (result ≡ length (issued_bytes settings.now.law.p (command_of settings.now.law issues held)))
        × (area.new ≡ over (issued_bytes settings.now.law.p (command_of settings.now.law issues held)) area.old) }
{
    if !issues {
        return 0;
    }
    let tables = settings.law.tables();
    let marked = tables.issued(&held.estimate.state, held.estimate.readings);
    frame::write_command(
        settings.law.p,
        held.period,
        marked.commands,
        marked.limited,
        area,
    )
    .unwrap()
}
