// Numbers within i32 with commas between them, as states and commands are printed.
ghost use Rattle.std.specs.Prelude.{◌≡◌, ◌≤◌};
ghost use Rattle.lists.specs.Choice.{pick};
ghost use Rattle.printed.specs.Values.{is_list, values_of};

use text::lines::part_end;
use text::numbers::number_in;

// The values of a list: the first `count` places are in use. An array with a length beside it, since nothing here has a heap.
#[derive(Clone, Copy)]
pub(crate) struct Values {
    pub(crate) count: usize,
    pub(crate) values: [i32; 6],
}

// A list of at most so many numbers.
pub(crate) fn values_in(list: &[u8], most: usize) -> Option<Values>
    requires { most ≤ 6 }
    ensures { result ≡ pick (is_list most list.now) (Some (values_of most list.now)) None }
{
    let mut values = [0i32; 6];
    let mut at = 0;
    for i in 0..most {
        let end = part_end(list, at, 44);
        let number = number_in(&list[at..end]);
        if !number.is_some() {
            return None;
        }
        values[i] = number.unwrap_or(0);
        if list.len() <= end {
            return Some(Values {
                count: i + 1,
                values,
            });
        }
        at = end + 1;
    }
    None
}
