// A PDU's way over the trunk, from the offer to the reply.
use crate::{datagrams, lines};
use trunk::{Arrival, Far, Load, Near, far_end, kinds, near_end, records};

const UNIT: u16 = 1;

// Room for any record, and so for any datagram that the trunk carries.
const ROOM: usize = kinds::LONGEST_RECORD;

// Both ends, the buffers that are lent to them, and a sum of what the calls answered.
#[derive(Drop)]
struct Trunk {
    near: Near,
    far: Far,
    store: [u8; near_end::STORE_SIZE],
    record: [u8; ROOM],
    out: [u8; ROOM],
    reply: [u8; records::HEAD_SIZE],
    sum: u64,
}

impl Trunk {
    fn new() -> Trunk {
        Trunk {
            near: near_end::new(),
            far: far_end::new(0, 0, 1).far,
            store: [0u8; near_end::STORE_SIZE],
            record: [0u8; ROOM],
            out: [0u8; ROOM],
            reply: [0u8; records::HEAD_SIZE],
            sum: 0,
        }
    }

    // Offers a datagram and sends its record: the record's size. None where one of them refuses.
    fn launch(&mut self, datagram: &[u8]) -> Option<usize> {
        let offered = near_end::offer(self.near, &mut self.store, datagram);
        self.near = offered.near;
        let number = offered.answer.ok()?;
        let sending = near_end::send(self.near, &self.store, number, &mut self.record);
        self.near = sending.near;
        sending.answer.ok()
    }

    // One cycle of a datagram. None where a call refuses. The sum takes a byte of the PDU put out too: another in each cycle.
    fn cycle(&mut self, datagram: &[u8]) -> Option<()> {
        let size = self.launch(datagram)?;
        let record = self.record.get(..size)?;
        let arrived = far_end::arrive(self.far, record, &mut self.reply, &mut self.out);
        self.far = arrived.far;
        let Ok(Arrival::Delivered { size, answer }) = arrived.answer else {
            return None;
        };
        let replied = near_end::take_reply(self.near, &self.reply);
        self.near = replied.near;
        let count = replied.answer.ok()?;
        let byte = self.out[(count % 128) as usize];
        for answered in [
            size as u64,
            u64::from(answer.number()),
            u64::from(count),
            u64::from(byte),
        ] {
            self.sum = self.sum.wrapping_add(answered);
        }
        Some(())
    }
}

// The kind's datagram, written at the start of `out`. None where no PDU of this kind is timed.
fn datagram(kind: u8, out: &mut [u8]) -> Option<&[u8]> {
    match kinds::load(kind)? {
        Load::Words(n) => datagrams::ppli(UNIT, n, out),
        Load::Transmitter => datagrams::transmitter(UNIT, out),
        Load::Interrogation | Load::TimingReply | Load::Nothing => None,
    }
}

// `cycle KIND TIMES ACCEPTED ACKNOWLEDGED DELIVERED SUM`: one cycle of a Transmitter, so that the far station knows the unit, then as many of the
// kind's datagram as are asked for. A cycle that is refused adds nothing.
pub fn run(rt: &HostRuntime, kind: u8, times: u64) -> Option<()> {
    let mut first = [0u8; ROOM];
    let mut second = [0u8; ROOM];
    let transmitter = datagrams::transmitter(UNIT, &mut first)?;
    let datagram = datagram(kind, &mut second)?;
    let mut trunk = Trunk::new();
    let _ = trunk.cycle(transmitter);
    for _ in 0..times {
        let _ = trunk.cycle(datagram);
    }
    let accepted = near_end::accepted(trunk.near);
    let acknowledged = near_end::acknowledged(trunk.near);
    let delivered = far_end::count(trunk.far);
    let sum = trunk.sum;
    lines::show(
        rt,
        format_args!("cycle {kind} {times} {accepted} {acknowledged} {delivered} {sum}"),
    );
    Some(())
}
