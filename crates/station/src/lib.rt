// The net-entry state of one station (document 01, "The station"): what each datagram and each clock makes of it.
// Every public call takes every station and every argument, and is promised as a whole answer and a whole station after it.
#![tactic(auto)]

ghost use Rattle.std.specs.Prelude.{◌≡◌, ◌<◌};
ghost use Rattle.pdu.specs.Reading.{reading};
ghost use Rattle.station.specs.Units.{level_of, net_of, exchanges_of, limit_of, count_of, id_of, state_of, clock_of, key_of, fresh, wrong_settings};
ghost use Rattle.station.specs.Units.{settings_of, usual_settings, made, state_number, units_held};
ghost use Rattle.occupancy.specs.Places.{places, Finds};
ghost use Rattle.station.specs.Units.{holds, place_of, seen_of, place_at};
ghost use Rattle.station.specs.Hearing.{heard};
ghost use Rattle.station.specs.Clock.{clocked};

use pdu::{Header, Reading};

mod answers;
mod hear_signal;
mod hear_transmitter;
mod pass_time;

pub use answers::{Answer, BadSettings, made_number};

// How many units a station holds at most.
pub const PLACES: usize = occupancy::PLACES;

// How many exchanges of round-trip timing a station may be made with (request R-1).
const FEWEST_EXCHANGES: u8 = 1;

const MOST_EXCHANGES: u8 = 16;

// The absence limit of a station: the seconds without a PPLI after which a unit is removed; and that of a station made without one (request R-12).
const SHORTEST_LIMIT: u16 = 24;

const LONGEST_LIMIT: u16 = 600;

pub const USUAL_LIMIT: u16 = 96;

// Each of the four numbers of a key has two bytes.
const KEY_PART: u64 = 65536;

// The station's own state in the net.
#[derive(Clone, Copy, Debug, PartialEq, Eq)]
pub enum State {
    Waiting,
    Coarse,
    Fine,
}

// What a station is made with; no call changes it.
#[derive(Clone, Copy, Debug, PartialEq, Eq)]
pub struct Settings {
    limit: u16,
    level: u8,
    net: u8,
    exchanges: u8,
}

// Where a station stands in the net.
#[derive(Clone, Copy, Debug, PartialEq, Eq)]
pub struct Standing {
    id: u32,
    count: u8,
    state: State,
}

// A station's own fields: all but its places.
#[derive(Clone, Copy, Debug, PartialEq, Eq)]
pub struct Own {
    clock: u64,
    standing: Standing,
    settings: Settings,
}

// An entry: what the station knows of a unit. The wide fields stand first, so that there is no gap between them to copy. `state` is the PDU's own
// number, as `Sync` has it.
#[derive(Clone, Copy, Debug, PartialEq, Eq)]
pub struct Unit {
    pub key: u64,
    pub last: u64,
    pub id: u32,
    pub level: u8,
    pub state: u8,
    pub inside: bool,
}

// A station. Its places are no `Option`s: document 01 asks for the word `used` (docs/DESIGN.md, "Forms that document 01 names").
// `used` is the word of held places, and what a free place holds means nothing. The entries stand first: with no gap before them they
// are copied as one block.
#[derive(Clone, Copy, Debug, PartialEq, Eq)]
pub struct Station {
    units: [Unit; PLACES],
    own: Own,
    used: u16,
}

// What a maker gives: the station asked for; or its refusal of the settings, with a station of level 0, net 0, 1 exchange and the usual limit.
// `Heard` differs in the answer's type alone: a generic pair under both would be no plainer, since `made` and `heard` name these two types.
#[derive(Clone, Copy, Debug, PartialEq, Eq)]
pub struct Made {
    pub station: Station,
    pub answer: Result<(), BadSettings>,
}

// What a call on a station answers, and the station after it.
#[derive(Clone, Copy, Debug, PartialEq, Eq)]
pub struct Heard {
    pub station: Station,
    pub answer: Answer,
}

// What a Signal says to a station: J0.0, a PPLI, round-trip timing (request R-1), or all else.
#[derive(Clone, Copy, Debug, PartialEq, Eq)]
pub enum Message {
    NetEntry,
    Ppli,
    Interrogation,
    TimingReply,
    Other,
}

// What a station knows of a unit: whether it is In, and when it was last heard.
#[derive(Clone, Copy, Debug, PartialEq, Eq)]
pub struct Seen {
    pub inside: bool,
    pub last: u64,
}

// A station of these settings before its first call.
#[tactic(auto, unfolding(crate::specs::Units::fresh))]
fn fresh_station(settings: Settings) -> Station
    ensures { result ≡ fresh settings }
{
    let blank = Unit {
        key: 0,
        last: 0,
        id: 0,
        level: 0,
        state: 0,
        inside: false,
    };
    Station {
        units: [blank; PLACES],
        own: Own {
            clock: 0,
            standing: Standing {
                id: 0,
                count: 0,
                state: State::Waiting,
            },
            settings,
        },
        used: 0,
    }
}

// Whether refusal 37 applies to these settings.
fn wrong_settings(settings: Settings) -> bool
    ensures { result ≡ wrong_settings settings }
{
    pdu::LAST_LEVEL < settings.level
        || pdu::LAST_NET < settings.net
        || !(FEWEST_EXCHANGES..=MOST_EXCHANGES).contains(&settings.exchanges)
        || !(SHORTEST_LIMIT..=LONGEST_LIMIT).contains(&settings.limit)
}

// Makes a station of this level and net, with this number of exchanges of round-trip timing and this absence limit in seconds; 37 where the
// level is above 4, the net above 127, the exchanges are not 1 to 16, or the limit is not 24 to 600. Four numbers and no struct: `made_by_rules` speaks of
// the numbers that a caller gives.
#[tactic(auto, unfolding(crate::specs::Units::made))]
pub fn with_limit(level: u8, net: u8, exchanges: u8, limit: u16) -> Made
    ensures { result ≡ made (settings_of level net exchanges limit) }
{
    let settings = Settings {
        limit,
        level,
        net,
        exchanges,
    };
    if wrong_settings(settings) {
        let least = Settings {
            limit: USUAL_LIMIT,
            level: 0,
            net: 0,
            exchanges: FEWEST_EXCHANGES,
        };
        return Made {
            station: fresh_station(least),
            answer: Err(BadSettings),
        };
    }
    Made {
        station: fresh_station(settings),
        answer: Ok(()),
    }
}

// Makes a station with the usual limit, 96 seconds; 37 as above. It is public by this name beside `with_limit` (docs/AUDIT.md, question 4).
pub fn new(level: u8, net: u8, exchanges: u8) -> Made
    ensures { result ≡ made (usual_settings level net exchanges) }
{
    with_limit(level, net, exchanges, USUAL_LIMIT)
}

// The station's call on a datagram: the reader's number, 30 to 35, 40 to 44, or 47.
// This call and `clock` take the station by value and hand it back, as docs/AUDIT.md (question 4) names them and `heard` and `clocked` say.
#[tactic(auto, unfolding(crate::specs::Hearing::heard, crate::specs::Hearing::step))]
pub fn hear(mut station: Station, datagram: &[u8]) -> Heard
    ensures { result ≡ heard station datagram.now }
{
    let answer = match reader::read(datagram) {
        Reading::Refused(refusal) => Answer::Unread(refusal),
        Reading::Transmitter(t) => hear_transmitter::transmitter(&mut station, t),
        Reading::Signal(g, size) => {
            // The reader leaves the body in the caller's slice (document 01), so that who needs it cuts it.
            let end = pdu::BODY_START + usize::from(size);
            let word = reader::words::at(&datagram[pdu::BODY_START..end], 0);
            hear_signal::signal(&mut station, g, word)
        }
    };
    Heard { station, answer }
}

// The station's call on a clock: 36 where it would go back, else 46 and the silent units removed.
#[tactic(auto, unfolding(crate::specs::Clock::at_time, crate::specs::Clock::clocked))]
pub fn clock(mut station: Station, t: u64) -> Heard
    ensures { result ≡ clocked station t }
{
    if t < station.own.clock {
        return Heard {
            station,
            answer: Answer::ClockBack,
        };
    }
    station.used = pass_time::survivors(&station, t);
    station.own.clock = t;
    Heard {
        station,
        answer: Answer::TimePassed,
    }
}

// The key of a PDU's unit: site, application, entity and radio as one number.
pub fn key_of(h: Header) -> u64
    ensures { result ≡ key_of h }
{
    let pair = u64::from(h.site) * KEY_PART + u64::from(h.application);
    (pair * KEY_PART + u64::from(h.entity)) * KEY_PART + u64::from(h.radio)
}

impl Station {
    // Whether place i is held by the unit with this key. The place is a bare number, as in `occupancy`: it belongs to the call.
    fn holds(&self, key: u64, i: usize) -> bool
        requires { i < places }
        ensures { result ≡ holds self.now key i }
    {
        occupancy::is_held(self.used, i) && self.units[i].key == key
    }

    // The place of a key: the lowest that is held with it.
    fn place_of(&self, key: u64) -> Option<usize>
        ensures { Finds result (place_of self.now key) }
    {
        (0..PLACES).find(|&i| self.holds(key, i))
    }
}

// The calls that look at a station stay functions, which take it by value: they are public by these names (docs/AUDIT.md, question 4).
pub fn level_of(station: Station) -> u8
    ensures { result ≡ level_of station }
{
    station.own.settings.level
}

pub fn net_of(station: Station) -> u8
    ensures { result ≡ net_of station }
{
    station.own.settings.net
}

// How many exchanges of round-trip timing make the station Fine, and how many it has counted.
pub fn exchanges_of(station: Station) -> u8
    ensures { result ≡ exchanges_of station }
{
    station.own.settings.exchanges
}

pub fn count_of(station: Station) -> u8
    ensures { result ≡ count_of station }
{
    station.own.standing.count
}

// The seconds without a PPLI after which the station removes a unit.
pub fn limit_of(station: Station) -> u16
    ensures { result ≡ limit_of station }
{
    station.own.settings.limit
}

pub fn id_of(station: Station) -> u32
    ensures { result ≡ id_of station }
{
    station.own.standing.id
}

pub fn state_of(station: Station) -> State
    ensures { result ≡ state_of station }
{
    station.own.standing.state
}

impl State {
    // A number for each state: 0 Waiting, 2 Coarse, 3 Fine.
    pub fn number(self) -> u8
        ensures { result ≡ state_number self }
    {
        match self {
            State::Waiting => 0,
            State::Coarse => pdu::COARSE,
            State::Fine => pdu::FINE,
        }
    }
}

pub fn clock_of(station: Station) -> u64
    ensures { result ≡ clock_of station }
{
    station.own.clock
}

// How many units the station holds.
pub fn units_held(station: Station) -> u32
    ensures { result ≡ units_held station }
{
    occupancy::held_count(station.used)
}

// What the station knows of a key.
#[tactic(auto, unfolding(crate::specs::Units::seen_of))]
pub fn look(station: Station, key: u64) -> Option<Seen>
    ensures { result ≡ seen_of station key }
{
    let i = station.place_of(key)?;
    let unit = station.units[i];
    Some(Seen {
        inside: unit.inside,
        last: unit.last,
    })
}

// The unit in place i, where there is one; there are places 0 to 15.
#[tactic(auto, unfolding(crate::specs::Units::place_at))]
pub fn at(station: Station, i: usize) -> Option<Unit>
    ensures { result ≡ place_at station i }
{
    if i < PLACES && occupancy::is_held(station.used, i) {
        Some(station.units[i])
    } else {
        None
    }
}
