// Entries, and the words that a caller hands them as.
ghost use Rattle.std.specs.Prelude.{◌≡◌, ◌+◌, ◌≤◌, length, drop};
ghost use Rattle.pages.specs.Entries.{commands_ok, command_of, entry_of, entry_by, values_of, blank as Entries·blank};

use octets::word::signed;

// A period, the view in it, and its command where there is one: of the four values as many count as a page has commands.
#[derive(Clone, Copy)]
pub struct Entry {
    pub period: u32,
    pub view: u32,
    pub command: Option<[i32; 4]>,
}

impl Entry {
    // The entry of a period, the view in it, whether the period is decided, and four values, which are the command where it is.
    #[tactic(auto, unfolding(crate::specs::Entries::entry_by, lists::specs::Choice::pick))]
    pub fn new(period: u32, view: u32, decided: bool, values: [i32; 4]) -> Self
        ensures { result ≡ entry_by period view decided values }
    {
        let command = if decided { Some(values) } else { None };
        Entry {
            period,
            view,
            command,
        }
    }

    // The four values of its command, 0 where there is none.
    pub fn values(self) -> [i32; 4]
        ensures { result ≡ values_of self }
    {
        self.command.unwrap_or([0; 4])
    }
}

// The words that an entry takes.
pub const WORDS: usize = 7;

// Whether p is within its range.
pub fn commands_ok(p: usize) -> bool
    ensures { result ≡ commands_ok p }
{
    1 <= p && p <= 4
}

// No entry.
pub fn blank() -> Entry
    ensures { result ≡ Entries·blank }
{
    Entry {
        period: 0,
        view: 0,
        command: None,
    }
}

// The command in the seven words from one on.
fn command_at(words: &[u32], at: usize) -> Option<[i32; 4]>
    requires { at + 7 ≤ length words.now }
    ensures { result ≡ command_of (drop at words.now) }
{
    if words[at + 2] == 0 {
        return None;
    }
    Some([
        signed(words[at + 3]),
        signed(words[at + 4]),
        signed(words[at + 5]),
        signed(words[at + 6]),
    ])
}

// The entry in the seven words from one on.
pub(crate) fn entry_at(words: &[u32], at: usize) -> Entry
    requires { at + 7 ≤ length words.now }
    ensures { result ≡ entry_of (drop at words.now) }
{
    Entry {
        period: words[at],
        view: words[at + 1],
        command: command_at(words, at),
    }
}
