// How both ends stand, as the last lines say it.
use station::{State, Station, Unit};
use text::show;
use trunk::{Far, Near, far_end, near_end};

// A state's word.
fn word(state: State) -> &'static str {
    match state {
        State::Waiting => "waiting",
        State::Coarse => "coarse",
        State::Fine => "fine",
    }
}

// `state LEVEL NET ID STATE CLOCK`, `timing EXCHANGES COUNT` and `limit SECONDS`
fn show_station(rt: &HostRuntime, s: Station) {
    let state = word(station::state_of(s));
    show::line(
        rt,
        format_args!(
            "state {} {} {} {state} {}",
            station::level_of(s),
            station::net_of(s),
            station::id_of(s),
            station::clock_of(s)
        ),
    );
    show::line(
        rt,
        format_args!(
            "timing {} {}",
            station::exchanges_of(s),
            station::count_of(s)
        ),
    );
    show::line(rt, format_args!("limit {}", station::limit_of(s)));
}

// `unit PLACE KEYHEX LEVEL SYNC ID IN LAST`
fn show_unit(rt: &HostRuntime, place: usize, u: Unit) {
    show::line(
        rt,
        format_args!(
            "unit {place} {:016x} {} {} {} {} {}",
            u.key,
            u.level,
            u.state,
            u.id,
            u8::from(u.inside),
            u.last
        ),
    );
}

// `counts ACCEPTED ACKNOWLEDGED DELIVERED`, the station's lines, and a line for each place that is held
pub fn show_ends(rt: &HostRuntime, near: Near, far: Far) {
    show::line(
        rt,
        format_args!(
            "counts {} {} {}",
            near_end::accepted(near),
            near_end::acknowledged(near),
            far_end::count(far)
        ),
    );
    let station = far_end::station(far);
    show_station(rt, station);
    for place in 0..station::PLACES {
        if let Some(unit) = station::at(station, place) {
            show_unit(rt, place, unit);
        }
    }
}
