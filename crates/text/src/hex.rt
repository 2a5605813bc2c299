// Bytes in lower-case hexadecimal, two digits each; `-` is no bytes.
ghost use Rattle.std.specs.Prelude.{SomeIff, Some, option_copied, ◌≡◌, ◌<◌, ◌≤◌, length, false};
ghost use Rattle.std.specs.Fmt.{digit_glyph};
ghost use Rattle.text.specs.Hex.{IsHexDigit, hex_value, bytes_of, IsHex, digits_of, written};

use crate::ROOM;
use std::{fmt, str};

// How many bytes are spelled at once.
const CHUNK: usize = 64;

// Room for their digits.
const SPELLED: usize = 2 * CHUNK;

// A hexadecimal digit's value.
fn value(c: u8) -> Option<u8>
    ensures { SomeIff result (IsHexDigit c) (hex_value c) }
{
    match c {
        b'0'..=b'9' => Some(c - b'0'),
        b'a'..=b'f' => Some(c - b'a' + 10),
        _ => None,
    }
}

// Reads a text of bytes into the start of `out`. The kit's crate `hex` decodes upper case too, which `IsHexDigit` does not allow.
#[tactic(auto, using(crate::proofs::Digits::byte_more))]
pub fn read<'a>(text: &[u8], out: &'a mut [u8; ROOM]) -> Option<&'a [u8]>
    ensures { SomeIff (option_copied result) (IsHex text.now) (bytes_of text.now) }
{
    if text == b"-".as_slice() {
        return Some(&out[..0]);
    }
    let n = text.len() / 2;
    if n == 0 || ROOM < n || text.len() % 2 != 0 {
        return None;
    }
    // Over `chunks_exact(2)` the proof would follow an iterator's rest, and over `out.iter_mut()` what each lent byte ends as: no plainer.
    for i in 0..n {
        out[i] = 16 * value(text[2 * i])? + value(text[2 * i + 1])?;
    }
    Some(&out[..n])
}

// A digit's character.
fn digit(n: u8) -> u8
    requires { n < 16 }
    ensures { result ≡ digit_glyph false n }
{
    if n < 10 { b'0' + n } else { b'a' - 10 + n }
}

// The digits of a chunk, spelled into `room`.
#[tactic(auto, using(crate::proofs::Digits::digits_more))]
fn spell<'a>(chunk: &[u8], room: &'a mut [u8; SPELLED]) -> &'a str
    requires { length chunk.now ≤ CHUNK }
    ensures { result.now ≡ digits_of chunk.now }
{
    for i in 0..chunk.len() {
        room[2 * i] = digit(chunk[i] / 16);
        room[2 * i + 1] = digit(chunk[i] % 16);
    }
    let Ok(text) = str::from_utf8(&room[..2 * chunk.len()]) else {
        unreachable!();
    };
    text
}

// Bytes to be printed.
#[derive(Clone, Copy)]
pub struct Hex<'a>(pub &'a [u8]);

impl fmt::Display for Hex<'_> {
    ghost output = { λ h. Some (written h.0.now) };

    fn fmt<W: fmt::Write>(&self, f: &mut fmt::Formatter<W>) -> fmt::Result {
        if self.0.is_empty() {
            return write!(f, "-");
        }
        let mut room = [0u8; SPELLED];
        for chunk in self.0.chunks(CHUNK) {
            f.write_str(spell(chunk, &mut room))?;
        }
        Ok(())
    }
}
