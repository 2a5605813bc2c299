// The calls of the C host, on numbers and byte slices. Every export of the archive stands in this crate.
#![tactic(auto)]

ghost use Rattle.std.specs.Prelude.{◌≡◌};
ghost use Rattle.pdu.specs.Forms.{size_of};
ghost use Rattle.pdu.specs.Reading.{reading, archive_reading, number_of};
ghost use Rattle.trunk.specs.Record.{checked, number_of_checked, size_of_checked};
ghost use Rattle.host.specs.Answer.{packed, packed_answer};

// The number stands above the size, which has 32 bits.
const ABOVE: u64 = 4294967296;

// The size of what is taken, or the number of a refusal, in one word. By numbers, since the refusals of two crates come here.
fn packed(answer: Result<u16, u8>) -> u64
    ensures { result ≡ packed_answer answer }
{
    match answer {
        Ok(size) => u64::from(size),
        Err(number) => u64::from(number) * ABOVE,
    }
}

// The answer number and size for the first PDU of a datagram; a null pointer with length 0 is an empty slice.
#[unsafe(no_mangle)]
pub extern "C" fn altuvrin_datagram(bytes: &[u8]) -> u64
    ensures { result ≡ packed (number_of (reading bytes.now)) (size_of (reading bytes.now)) }
{
    packed(reader::answer(bytes).map_err(|refusal| refusal.number()))
}

// The same for a datagram of an old capture, in which retired messages are taken too.
#[unsafe(no_mangle)]
pub extern "C" fn altuvrin_archive(bytes: &[u8]) -> u64
    ensures { result ≡ packed (number_of (archive_reading bytes.now)) (size_of (archive_reading bytes.now)) }
{
    packed(reader::answer_archive(bytes).map_err(|refusal| refusal.number()))
}

// The answer number and size for a trunk record, as the lister's check gives them.
#[unsafe(no_mangle)]
pub extern "C" fn altuvrin_record(bytes: &[u8]) -> u64
    ensures { result ≡ packed (number_of_checked (checked bytes.now)) (size_of_checked (checked bytes.now)) }
{
    let answer = trunk::records::check(bytes);
    // A function's, and not by a `match` here: the promise above names `size_of_checked`, and `records::size` is it.
    let size = trunk::records::size(answer);
    packed(answer.map(|_| size).map_err(|refusal| refusal.number()))
}
