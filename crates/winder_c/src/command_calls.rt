// Reading a command.
ghost use Rattle.std.specs.Prelude.{◌≡◌};
ghost use Rattle.estimate.specs.Marks.{bit};
ghost use Rattle.frame.specs.CommandReading.{read_command_refusal, read_command};
ghost use Rattle.winder.specs.Areas.{unless_refused};

// Reads a command of p values.
#[unsafe(no_mangle)]
pub extern "C" fn winder_read_command(
    p: usize,
    bytes: &[u8],
    period: &mut u32,
    commands: &mut [i32; 4],
    limited: &mut u8,
) -> u32
    ensures answer { result ≡ read_command_refusal p bytes.now }
    ensures period { period.new
        ≡ unless_refused (read_command_refusal p bytes.now) (read_command p bytes.now).period period.old }
    ensures commands { commands.new
        ≡ unless_refused (read_command_refusal p bytes.now) (read_command p bytes.now).values commands.old }
    ensures limited { limited.new
        ≡ unless_refused (read_command_refusal p bytes.now) (bit (read_command p bytes.now).limited) limited.old }
{
    winder::command_calls::winder_read_command(p, bytes, period, commands, limited)
}
