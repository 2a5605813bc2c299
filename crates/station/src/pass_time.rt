// Passing time: which units stay.
ghost use Rattle.std.specs.Prelude.{◌≡◌, ◌<◌};
ghost use Rattle.occupancy.specs.Places.{places, word_of};
ghost use Rattle.station.specs.Clock.{silent, stays};

use crate::{PLACES, Station};

// Whether a unit last heard at this second is absent at t, by this limit; from a later second none have passed.
fn is_silent(limit: u16, t: u64, last: u64) -> bool
    ensures { result ≡ silent limit t last }
{
    u64::from(limit) <= t.saturating_sub(last)
}

// Whether place i is held and stays held at t. The place is a bare number, as in `occupancy`: it belongs to the call.
fn stays(station: &Station, t: u64, i: usize) -> bool
    requires { i < places }
    ensures { result ≡ stays station.now t i }
{
    let limit = station.own.settings.limit;
    occupancy::is_held(station.used, i) && !is_silent(limit, t, station.units[i].last)
}

// The word of the places that stay held at t.
pub(crate) fn survivors(station: &Station, t: u64) -> u16
    ensures { result ≡ word_of (stays station.now t) places }
{
    let mut word = 0;
    // Over the places' numbers: a place is what `stays` and `with_place` ask for.
    for i in 0..PLACES {
        if stays(station, t, i) {
            word = occupancy::with_place(word, i);
        }
    }
    word
}
