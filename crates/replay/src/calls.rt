// The calls of a script, made and shown.
use crate::script::{Before, Call};
use crate::{answers, script};
use text::{ROOM, show};
use trunk::{Far, Near, far_end, near_end};

// Both ends, the store that is lent to the near end, and what stands before the next line.
#[derive(Drop)]
pub struct State {
    pub near: Near,
    pub far: Far,
    pub before: Before,
    store: [u8; ROOM],
    // So many of the store's bytes are lent: a script may ask for any length up to ROOM. No `ArrayVec`: the bytes behind stay when fewer are lent.
    // Each call cuts its buffers anew: no type keeps that a length read is at most ROOM (`text::words`, `room`).
    lent: usize,
}

impl State {
    // The state before any line: fresh ends, the far station of level 0, net 0, one exchange and the usual limit.
    pub fn new() -> State {
        State {
            near: near_end::new(),
            far: far_end::new(0, 0, 1).far,
            before: Before::Nothing,
            store: [0u8; ROOM],
            lent: near_end::STORE_SIZE,
        }
    }

    fn make_station(
        &mut self,
        rt: &HostRuntime,
        level: u8,
        net: u8,
        exchanges: u8,
        limit: Option<u16>,
    ) {
        let made = match limit {
            None => far_end::new(level, net, exchanges),
            Some(limit) => far_end::with_limit(level, net, exchanges, limit),
        };
        show::line(
            rt,
            format_args!("station {}", station::made_number(made.answer)),
        );
        self.far = made.far;
    }

    fn make_store(&mut self, rt: &HostRuntime, size: usize) {
        show::line(rt, format_args!("store {size}"));
        self.lent = size;
    }

    // Nobody writes past the store's end.
    fn poke(&mut self, rt: &HostRuntime, offset: usize, bytes: &[u8]) -> Option<()> {
        let lent = &mut self.store[..self.lent.min(ROOM)];
        let place = lent.get_mut(offset..)?.get_mut(..bytes.len())?;
        place.copy_from_slice(bytes);
        show::line(rt, format_args!("poke {offset}"));
        Some(())
    }

    fn offer(&mut self, rt: &HostRuntime, datagram: &[u8]) {
        let offered = near_end::offer(self.near, &mut self.store[..self.lent.min(ROOM)], datagram);
        self.near = offered.near;
        answers::offered(rt, offered.answer);
    }

    fn send(&mut self, rt: &HostRuntime, number: u32, room: usize) {
        let mut out = [0u8; ROOM];
        let lent = &self.store[..self.lent.min(ROOM)];
        let sending = near_end::send(self.near, lent, number, &mut out[..room.min(ROOM)]);
        self.near = sending.near;
        answers::sent(rt, sending.answer, &out);
    }

    fn to_near(&mut self, rt: &HostRuntime, received: &[u8]) {
        let replied = near_end::take_reply(self.near, received);
        self.near = replied.near;
        answers::replied(rt, replied.answer);
    }

    fn to_far(&mut self, rt: &HostRuntime, received: &[u8], room: usize, reply_room: usize) {
        let mut out = [0u8; ROOM];
        let mut reply = [0u8; ROOM];
        let arrived = far_end::arrive(
            self.far,
            received,
            &mut reply[..reply_room.min(ROOM)],
            &mut out[..room.min(ROOM)],
        );
        self.far = arrived.far;
        answers::arrived(rt, arrived.answer, &out, &reply);
    }

    fn clock(&mut self, rt: &HostRuntime, t: u64) {
        let ticked = far_end::tick(self.far, t);
        self.far = ticked.far;
        show::line(rt, format_args!("clock {}", ticked.answer.number()));
    }

    // Makes a call. None where it would write past the store's end.
    fn make(&mut self, rt: &HostRuntime, call: Call) -> Option<()> {
        match call {
            Call::Station {
                level,
                net,
                exchanges,
                limit,
            } => self.make_station(rt, level, net, exchanges, limit),
            Call::Store(size) => self.make_store(rt, size),
            Call::Poke { offset, bytes } => self.poke(rt, offset, bytes)?,
            Call::Offer(datagram) => self.offer(rt, datagram),
            Call::Send { number, room } => self.send(rt, number, room),
            Call::Near(received) => self.to_near(rt, received),
            Call::Far {
                received,
                room,
                reply_room,
            } => self.to_far(rt, received, room, reply_room),
            Call::Clock(t) => self.clock(rt, t),
        }
        Some(())
    }

    // Runs one line. One that cannot be read, or whose call may not stand here, changes nothing. Buffers are lent as zeros.
    pub fn run(&mut self, rt: &HostRuntime, line: &[u8]) -> Option<()> {
        let mut given = [0u8; ROOM];
        let call = script::read(line, &mut given)?;
        if !script::in_place(call, self.before) {
            return None;
        }
        self.make(rt, call)?;
        self.before = script::behind(call);
        Some(())
    }
}
