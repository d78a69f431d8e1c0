// The law's calls.
ghost use Rattle.std.specs.Prelude.{◌≡◌};
ghost use Rattle.law.specs.Settings.{settings_of, refusal};
ghost use Rattle.law.specs.Law.{updated};
ghost use Rattle.winder.specs.LawAreas.{readings_of, update_mark_after, commands_after, command_mark_after};

use crate::answers::refusal_number;
use crate::areas::{mark_byte, readings_of};
use law::Tables;

// The state after one period with these readings, and whether clamping changed a value.
pub fn winder_update<'a>(
    n: usize,
    m: usize,
    p: usize,
    a: &'a [i32; 36],
    l: &'a [i32; 24],
    c: &'a [i32; 24],
    k: &'a [i32; 24],
    low: &'a [i32; 4],
    high: &'a [i32; 4],
    present: &[u8; 4],
    values: &[i32; 4],
    state: &mut [i32; 6],
    limited: &mut u8,
) -> u32
    ensures answer { result ≡ refusal (settings_of n m p a.now l.now c.now k.now low.now high.now) }
    ensures state { state.new ≡ updated (settings_of n m p a.now l.now c.now k.now low.now high.now) state.old (readings_of present.now values.now) }
    ensures limited { limited.new ≡ update_mark_after (settings_of n m p a.now l.now c.now k.now low.now high.now) state.old (readings_of present.now values.now) limited.old }
{
    let tables = Tables {
        n,
        m,
        p,
        a,
        l,
        c,
        k,
        low,
        high,
    };
    match tables.update(state, readings_of(present, values)) {
        Ok(updated) => {
            let next = updated.state;
            *state = next;
            *limited = mark_byte(updated.limited);
            0
        }
        Err(refusal) => refusal_number(refusal),
    }
}

// The commands of a state, and whether their limits changed one.
pub fn winder_command<'a>(
    n: usize,
    m: usize,
    p: usize,
    a: &'a [i32; 36],
    l: &'a [i32; 24],
    c: &'a [i32; 24],
    k: &'a [i32; 24],
    low: &'a [i32; 4],
    high: &'a [i32; 4],
    state: &[i32; 6],
    commands: &mut [i32; 4],
    limited: &mut u8,
) -> u32
    ensures answer { result ≡ refusal (settings_of n m p a.now l.now c.now k.now low.now high.now) }
    ensures commands { commands.new ≡ commands_after (settings_of n m p a.now l.now c.now k.now low.now high.now) state.now commands.old }
    ensures limited { limited.new ≡ command_mark_after (settings_of n m p a.now l.now c.now k.now low.now high.now) state.now limited.old }
{
    let tables = Tables {
        n,
        m,
        p,
        a,
        l,
        c,
        k,
        low,
        high,
    };
    match tables.command(state) {
        Ok(marked) => {
            let values = marked.commands;
            *commands = values;
            *limited = mark_byte(marked.limited);
            0
        }
        Err(refusal) => refusal_number(refusal),
    }
}
