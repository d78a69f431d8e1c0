// Reading a command.
ghost use Rattle.std.specs.Prelude.{◌≡◌};
ghost use Rattle.estimate.specs.Marks.{bit};
ghost use Rattle.frame.specs.CommandReading.{read_command_refusal, read_command};
ghost use Rattle.winder.specs.Areas.{unless_refused};

use crate::answers::refusal_number;
use crate::areas::mark_byte;

// Reads a command of p values.
pub fn winder_read_command(
    p: usize,
    bytes: &[u8],
    period: &mut u32,
    commands: &mut [i32; 4],
    limited: &mut u8,
) -> u32
    ensures answer { result ≡ read_command_refusal p bytes.now }
    ensures period { period.new
        ≡ unless_refused (read_command_refusal p bytes.now) (read_command p bytes.now).period period.old }
    ensures commands { commands.new
        ≡ unless_refused (read_command_refusal p bytes.now) (read_command p bytes.now).values commands.old }
    ensures limited { limited.new
        ≡ unless_refused (read_command_refusal p bytes.now) (bit (read_command p bytes.now).limited) limited.old }
{
    match frame::read_command(p, bytes) {
        Ok(command) => {
            *period = command.period;
            let values = command.values;
            *commands = values;
            *limited = mark_byte(command.limited);
            0
        }
        Err(refusal) => refusal_number(refusal),
    }
}
