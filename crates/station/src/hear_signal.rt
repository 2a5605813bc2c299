// Hearing a Signal.
ghost use Rattle.std.specs.Prelude.{◌≡◌, ◌<◌};
ghost use Rattle.occupancy.specs.Places.{places};
ghost use Rattle.station.specs.Hearing.{leaving, other_id, labelled, word_saying, message_of, id_after, state_after, both_coarse, count_joined};
ghost use Rattle.station.specs.Hearing.{standing_after, counts_for, count_next, state_timed, standing_timed, heard_message, heard_signal};

use crate::{Answer, Message, Own, Standing, State, Station, Unit};
use pdu::{Signal, Word};

// The ID that matches all.
const ANY_ID: u32 = 0;

const COARSE_LEVEL: u8 = 4;

const PPLI_LABEL: u8 = 2;

// Whether refusal 33 applies to the station's ID and the sender's.
#[tactic(auto, unfolding(crate::specs::Hearing::other_id))]
fn other_id(own: u32, sender: u32) -> bool
    ensures { result ≡ other_id own sender }
{
    own != ANY_ID && sender != ANY_ID && own != sender
}

// What an initial word says.
#[tactic(auto, unfolding(crate::specs::Hearing::labelled))]
fn labelled_message(label: u8, sublabel: u8) -> Message
    ensures { result ≡ labelled label sublabel }
{
    match (label, sublabel) {
        (0, 0) => Message::NetEntry,
        (PPLI_LABEL, _) => Message::Ppli,
        _ => Message::Other,
    }
}

// What a first word says, by the message type.
#[tactic(auto, unfolding(crate::specs::Hearing::word_saying))]
fn word_message(kind: u8, word: Option<Word>) -> Message
    ensures { result ≡ word_saying kind word }
{
    match word {
        Some(
            Word {
                format: 0,
                label,
                sublabel,
            },
        ) if kind == 0 => labelled_message(label, sublabel),
        _ => Message::Other,
    }
}

// What a Signal says, by its message type and first word.
#[tactic(auto, unfolding(crate::specs::Hearing::message_of))]
fn message(kind: u8, word: Option<Word>) -> Message
    ensures { result ≡ message_of kind word }
{
    match kind {
        pdu::INTERROGATION => Message::Interrogation,
        pdu::TIMING_REPLY => Message::TimingReply,
        _ => word_message(kind, word),
    }
}

// The station's ID after a J0.0.
fn id_after(own: u32, sender: u32) -> u32
    ensures { result ≡ id_after own sender }
{
    if own == ANY_ID { sender } else { own }
}

// The station's state after a J0.0, by whether both levels are 4: a bool, as the definition takes it.
// Apart from `count_joined`: a must-fail edit changes each of the two alone, together with its definition.
fn state_after(both: bool, state: State) -> State
    ensures { result ≡ state_after both state }
{
    match (both, state) {
        (true, State::Waiting) => State::Coarse,
        (true, _) => state,
        (false, _) => State::Fine,
    }
}

// The count of exchanges after a J0.0, by whether both levels are 4: it starts anew where the station becomes Coarse.
// A bool, as the definition takes it.
fn count_joined(both: bool, state: State, count: u8) -> u8
    ensures { result ≡ count_joined both state count }
{
    match (both, state) {
        (true, State::Waiting) => 0,
        _ => count,
    }
}

// Whether both levels are 4.
fn both_coarse(own: u8, sender: u8) -> bool
    ensures { result ≡ both_coarse own sender }
{
    own == COARSE_LEVEL && sender == COARSE_LEVEL
}

// Where a station stands after a J0.0 from the sender.
fn standing_after(own: Own, sender: Unit) -> Standing
    ensures { result ≡ standing_after own sender }
{
    let both = both_coarse(own.settings.level, sender.level);
    let was = own.standing;
    Standing {
        id: id_after(was.id, sender.id),
        count: count_joined(both, was.state, was.count),
        state: state_after(both, was.state),
    }
}

// Whether a timing reply from the sender counts.
fn counts(own: Own, sender: Unit) -> bool
    ensures { result ≡ counts_for own sender }
{
    own.standing.state == State::Coarse && both_coarse(own.settings.level, sender.level)
}

// One more exchange, up to their number.
fn count_next(exchanges: u8, count: u8) -> u8
    ensures { result ≡ count_next exchanges count }
{
    count.saturating_add(1).min(exchanges)
}

// The state at this count of exchanges.
fn state_timed(exchanges: u8, count: u8) -> State
    ensures { result ≡ state_timed exchanges count }
{
    if count == exchanges {
        State::Fine
    } else {
        State::Coarse
    }
}

// Where a station stands after a timing reply that counts.
fn standing_timed(own: Own) -> Standing
    ensures { result ≡ standing_timed own }
{
    let exchanges = own.settings.exchanges;
    let count = count_next(exchanges, own.standing.count);
    Standing {
        count,
        state: state_timed(exchanges, count),
        ..own.standing
    }
}

// A message that passed 31, 32 and 33, from the unit in place i: 34 and 42, 34 and 43, 34 and 47 or 44, 44, or 35 and 44.
// The place is a bare number, as in `occupancy`: it belongs to the call.
#[tactic(auto, unfolding(crate::specs::Hearing::heard_message, crate::specs::Hearing::after_j00, crate::specs::Hearing::after_ppli))]
fn taken(station: &mut Station, i: usize, m: Message) -> Answer
    requires { i < places }
    ensures { leaving result station.new ≡ heard_message station.old i m }
{
    let sender = station.units[i];
    let fine = sender.state == pdu::FINE;
    match m {
        Message::NetEntry if fine => {
            station.own.standing = standing_after(station.own, sender);
            Answer::Joined
        }
        Message::Ppli if fine => {
            station.units[i] = Unit {
                inside: true,
                last: station.own.clock,
                ..sender
            };
            Answer::Positioned
        }
        Message::TimingReply if fine && counts(station.own, sender) => {
            station.own.standing = standing_timed(station.own);
            Answer::Counted
        }
        Message::TimingReply if fine => Answer::Passed,
        Message::NetEntry | Message::Ppli | Message::TimingReply => Answer::NotFine,
        Message::Interrogation => Answer::Passed,
        Message::Other if sender.inside && station.own.standing.state == State::Fine => {
            Answer::Passed
        }
        Message::Other => Answer::NotIn,
    }
}

// A Signal and the first word of its body: 31 to 35, 42 to 44, or 47.
#[tactic(auto, unfolding(crate::specs::Hearing::heard_signal, crate::specs::Hearing::signal_rules))]
pub(crate) fn signal(station: &mut Station, g: Signal, word: Option<Word>) -> Answer
    ensures { leaving result station.new ≡ heard_signal station.old g word }
{
    let Some(i) = station.place_of(crate::key_of(g.header)) else {
        return Answer::UnknownKey;
    };
    if g.network.net != station.own.settings.net {
        return Answer::OtherNet;
    }
    if other_id(station.own.standing.id, station.units[i].id) {
        return Answer::OtherId;
    }
    taken(station, i, message(g.network.message_type, word))
}
