// The body of round-trip timing (request R-1).
ghost use Rattle.std.specs.Prelude.{◌≡◌};
ghost use Rattle.pdu.specs.Timing.{timing_at, timing_says};
ghost use Rattle.pdu.specs.Fields.{plain_timing};

// The field of a body of round-trip timing, or nothing where the body is too short for it.
#[tactic(auto, unfolding(pdu::specs::Timing::timing_at))]
pub fn at(body: &[u8]) -> Option<u64>
    ensures answer { result ≡ timing_at body.now }
    ensures says { timing_says result ≡ plain_timing body.now }
{
    if body.len() < pdu::TIMING_BYTES {
        return None;
    }
    let high = wire::number_at::<u16>(body, 0) % pdu::TIMING_HIGHS;
    let low = wire::number_at::<u32>(body, pdu::TIMING_LOW);
    Some(u64::from(high) * pdu::TIMING_UNIT + u64::from(low))
}
