// Majority, coordinator, the boxes heard, and which of two estimates is the better.
ghost use Rattle.std.specs.Prelude.{◌≡◌, take, drop, count_by};
ghost use Rattle.scram.specs.Quorum.{majority, coordinator, beats, among, count};

// The majority of a group of n boxes.
#[tactic(auto, unfolding(crate::specs::Quorum::majority))]
pub fn majority(n: u8) -> u8
    ensures { result ≡ majority n }
{
    n / 2 + 1
}

// The coordinator of a view among n boxes.
#[tactic(auto, using(crate::proofs::Counting::by_size))]
pub fn coordinator(n: u8, view: u32) -> u8
    ensures { result ≡ coordinator n view }
{
    if n == 0 {
        0
    } else {
        (view % u32::from(n)) as u8 + 1
    }
}

// Whether the first of two estimates, each by its base view, base period and box, is the better.
#[tactic(auto, unfolding(crate::specs::Quorum::beats))]
pub fn beats(
    base_view: u32,
    base_period: u32,
    box_number: u8,
    other_base_view: u32,
    other_base_period: u32,
    other_box: u8,
) -> bool
    ensures { result ≡ beats base_view base_period box_number other_base_view other_base_period other_box }
{
    (other_base_view, other_base_period, box_number) < (base_view, base_period, other_box)
}

// How many of the boxes 1 to n were heard; a box without a place was not.
#[tactic(auto, using(crate::proofs::Counting::heard_counted))]
pub fn count_heard(heard: [bool; 10], n: u8) -> u8
    ensures { result ≡ count (among heard) n }
{
    marked(heard, n)
}

// How many of the first n places after place 0 are marked. The chain has a function of its own, since its list is what the search gives.
fn marked(heard: [bool; 10], n: u8) -> u8
    ensures { result ≡ count_by (λ b. b) (take n (drop 1 heard)) }
{
    heard
        .iter()
        .skip(1)
        .take(usize::from(n))
        .filter(|is_heard| **is_heard)
        .count() as u8
}
