// The occupancy word of a station's sixteen places: bit i is 1 exactly where place i is held.
// Internal: the crates above are proved to meet each `requires`. A place is a bare number: a loop over 0..PLACES gives its bound with no proof, and
// a type for it would be wrapped and unwrapped at each index of the entries.
#![tactic(auto)]

ghost use Rattle.std.specs.Prelude.{◌≡◌, false, ◌<◌};
ghost use Rattle.occupancy.specs.Places.{places, held, free_place, Finds, held_count, with_place};

pub const PLACES: usize = 16;

// Whether place i is held.
#[tactic(auto, using(std::proofs::lemmas::Nat::Bits::shr_and_one))]
pub fn is_held(word: u16, i: usize) -> bool
    requires { i < places }
    ensures { result ≡ held word i }
{
    (word >> i) & 1 == 1
}

// The lowest-numbered free place; none where every place is held.
pub fn free_place(word: u16) -> Option<usize>
    ensures { Finds result (free_place word) }
{
    let place = (!word).trailing_zeros() as usize;
    if place < PLACES { Some(place) } else { None }
}

// How many places are held.
pub fn held_count(word: u16) -> u32
    ensures { result ≡ held_count word }
{
    word.count_ones()
}

// The word with its free place i taken.
pub fn with_place(word: u16, i: usize) -> u16
    requires { (i < places) × (held word i ≡ false) }
    ensures { result ≡ with_place word i }
{
    word | (1 << i)
}
