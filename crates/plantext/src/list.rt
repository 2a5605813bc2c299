// A list of bytes with a fixed room, which is copied as any plain value: the kit's `ArrayVec` is not.
#![tactic(auto)]

ghost use Rattle.std.specs.Prelude.{◌≤◌};
ghost use Rattle.text.specs.declared.TheConstants.{ROOM};

use text::ROOM;

// The list is the first `count` bytes (`items`).
#[derive(Clone, Copy)]
pub struct ByteList {
    bytes: [u8; ROOM],
    count: usize,
    ghost fits: { count ≤ ROOM },
}

impl ByteList {
    ghost use Rattle.std.specs.Prelude.{◌≡◌, []};
    ghost use Rattle.plantext.specs.Lists.{items};
    ghost use Rattle.plantext.specs.Inputs.{pushed};

    pub fn new() -> Self
        ensures { items result ≡ [] }
    {
        ByteList {
            bytes: [0; ROOM],
            count: 0,
        }
    }

    // Puts a byte behind the list, where there is room: a list without room is longer than any that is accepted.
    pub fn push(&mut self, byte: u8)
        ensures { items self.new ≡ pushed (items self.old) byte }
    {
        let count = self.count;
        if count != ROOM {
            self.bytes[count] = byte;
            self.count = count + 1;
        }
    }

    pub fn as_slice(&self) -> &[u8]
        ensures { result.now ≡ items self.now }
    {
        &self.bytes[..self.count]
    }
}
