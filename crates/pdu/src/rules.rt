// The tests of a record's fields, and the sizes that follow from them: the reader and the writer both use these.
ghost use Rattle.std.specs.Prelude.{◌≡◌, ◌+◌, [], ◌∷◌};
ghost use Rattle.wire.specs.First.{◌given_when◌, first};
ghost use Rattle.pdu.specs.Refusals.{refused};
ghost use Rattle.pdu.specs.Tables.{filled, signal_size, is_seven, is_timing};
ghost use Rattle.pdu.specs.Words.{words_in};
ghost use Rattle.pdu.specs.Rules.{wrong_version, wrong_status, is_primary, wrong_sync, wrong_security, access_rules, is_too_late};
ghost use Rattle.pdu.specs.Rules.{slot_rules, network_rules, is_retired};
ghost use Rattle.pdu.specs.Rules.{live_rules, wrong_timing, body_rules};
ghost use Rattle.pdu.specs.Writing.{head_rules};

use crate::{Header, Network, Refusal, Sync};

// Whether a version is 7, which has a status.
pub fn is_seven(version: u8) -> bool
    ensures { result ≡ is_seven version }
{
    version == crate::STATUS_VERSION
}

// Whether refusal 2 applies to a version.
#[tactic(auto, unfolding(crate::specs::Rules::wrong_version))]
pub fn wrong_version(v: u8) -> bool
    ensures { result ≡ wrong_version v }
{
    !matches!(
        v,
        crate::OLDER_VERSION | crate::NEWER_VERSION | crate::STATUS_VERSION
    )
}

impl Header {
    // Whether refusal 52 applies.
    #[tactic(auto, unfolding(crate::specs::Rules::wrong_status))]
    pub fn has_wrong_status(self) -> bool
        ensures { result ≡ wrong_status self }
    {
        !is_seven(self.version) && self.status != 0
    }

    // 2, and 52, of a header to be written.
    pub fn check(self) -> Result<(), Refusal>
        ensures { refused result ≡ first (head_rules self) }
    {
        if wrong_version(self.version) {
            return Err(Refusal::Version);
        }
        if self.has_wrong_status() {
            return Err(Refusal::Status);
        }
        Ok(())
    }
}

// Whether a primary mode is one of the two.
fn is_primary(mode: u8) -> bool
    ensures { result ≡ is_primary mode }
{
    matches!(mode, crate::FIRST_PRIMARY_MODE..=crate::LAST_PRIMARY_MODE)
}

impl Sync {
    // Whether refusal 9 applies.
    #[tactic(auto, unfolding(crate::specs::Rules::wrong_sync))]
    pub fn is_wrong(self) -> bool
        ensures { result ≡ wrong_sync self }
    {
        // `&` and `|` join all five, so that there is one branch for the rule and not one for each field.
        !((self.level <= crate::LAST_LEVEL)
            & is_primary(self.primary)
            & (self.secondary <= crate::LAST_SECONDARY_MODE)
            & matches!(self.state, crate::COARSE | crate::FINE)
            & ((crate::FIRST_ID_LEVEL <= self.level) | (self.id == 0)))
    }

    // 9.
    pub fn check(self) -> Result<(), Refusal>
        ensures { refused result ≡ first ((9 given_when wrong_sync self) ∷ []) }
    {
        if self.is_wrong() {
            return Err(Refusal::Modulation);
        }
        Ok(())
    }
}

// Whether a TSEC or MSEC is neither a key number nor absent.
fn wrong_security(k: u8) -> bool
    ensures { result ≡ wrong_security k }
{
    !matches!(k, 0..=crate::LAST_SECURITY | crate::NO_SECURITY)
}

// Whether a message type is retired.
fn is_retired(message_type: u8) -> bool
    ensures { result ≡ is_retired message_type }
{
    matches!(message_type, crate::FIRST_RETIRED..=crate::LAST_RETIRED)
}

impl Network {
    // NPG, net, TSEC and MSEC: 131 to 134.
    #[tactic(auto, unfolding(crate::specs::Rules::access_rules))]
    fn check_access(self) -> Result<(), Refusal>
        ensures { refused result ≡ first (access_rules self) }
    {
        if crate::LAST_NPG < self.npg {
            return Err(Refusal::Npg);
        }
        if crate::LAST_NET < self.net {
            return Err(Refusal::Net);
        }
        if wrong_security(self.tsec) {
            return Err(Refusal::Tsec);
        }
        if wrong_security(self.msec) {
            return Err(Refusal::Msec);
        }
        Ok(())
    }

    // Whether the slot comes after the last one of the last epoch.
    fn is_too_late(self) -> bool
        ensures { result ≡ is_too_late self }
    {
        self.epoch == crate::LAST_EPOCH && crate::LAST_SLOT_OF_LAST_EPOCH < self.slot
    }

    // The message type and the slot ID: 135 to 138.
    #[tactic(auto, unfolding(crate::specs::Rules::slot_rules))]
    fn check_slot(self) -> Result<(), Refusal>
        ensures { refused result ≡ first (slot_rules self) }
    {
        if crate::LAST_MESSAGE_TYPE < self.message_type {
            return Err(Refusal::MessageType);
        }
        if crate::LAST_SLOT < self.slot {
            return Err(Refusal::Slot);
        }
        if crate::LAST_EPOCH < self.epoch {
            return Err(Refusal::Epoch);
        }
        if self.is_too_late() {
            return Err(Refusal::LateSlot);
        }
        Ok(())
    }

    // The rules of the network header: 131 to 138.
    #[tactic(auto, using(crate::proofs::RefusalLaws::network_then))]
    fn check_fields(self) -> Result<(), Refusal>
        ensures { refused result ≡ first (network_rules self) }
    {
        self.check_access()?;
        self.check_slot()
    }

    // The same, and behind them 50.
    #[tactic(auto, using(crate::proofs::RefusalLaws::live_then))]
    pub fn check(self) -> Result<(), Refusal>
        ensures { refused result ≡ first (live_rules self) }
    {
        self.check_fields()?;
        if is_retired(self.message_type) {
            return Err(Refusal::Retired);
        }
        Ok(())
    }
}

// How many whole words stand behind the header of a type 0 body of n bytes.
pub fn words_in(n: usize) -> usize
    ensures { result ≡ words_in n }
{
    n.saturating_sub(crate::BODY_HEADER) / crate::WORD_BYTES
}

// Whether a message type is one of round-trip timing.
pub fn is_timing(message_type: u8) -> bool
    ensures { result ≡ is_timing message_type }
{
    matches!(message_type, crate::INTERROGATION | crate::TIMING_REPLY)
}

// Whether a body of n bytes has not the size of round-trip timing, and should have it.
fn wrong_timing(message_type: u8, n: usize) -> bool
    ensures { result ≡ wrong_timing message_type n }
{
    is_timing(message_type) && n != crate::TIMING_BYTES
}

// The rules of a body of n bytes: 14, and 15.
#[tactic(auto, unfolding(crate::specs::Rules::body_rules))]
pub fn check_body(message_type: u8, n: usize) -> Result<(), Refusal>
    ensures { refused result ≡ first (body_rules message_type n) }
{
    if message_type == 0 {
        let words = words_in(n);
        if n != crate::BODY_HEADER + crate::WORD_BYTES * words {
            return Err(Refusal::BodySize);
        }
        if crate::MOST_WORDS < words {
            return Err(Refusal::BodyLimit);
        }
        return Ok(());
    }
    if wrong_timing(message_type, n) {
        return Err(Refusal::BodySize);
    }
    if crate::MOST_BYTES < n {
        return Err(Refusal::BodyLimit);
    }
    Ok(())
}

// So many bytes and so many more, filled.
pub fn filled_size(head: u16, more: u16) -> usize
    ensures { result ≡ filled (head + more) }
{
    (usize::from(head) + usize::from(more)).next_multiple_of(crate::FILL)
}

// The size of a Signal PDU whose body has n bytes.
pub fn signal_size(n: u16) -> usize
    ensures { result ≡ signal_size n }
{
    filled_size(crate::BODY_START as u16, n)
}
