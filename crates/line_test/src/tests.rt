use crate::driver::Step::{Carry, Drain, Receive, Send, Shut, Stand};
use crate::driver::{Driver, Step};
use line::{Hosted, Line, Parcel, Ring};
use protocol::Refusal::{Again, Broken, Limit, Pipe};
use std::process::Abort;
use std::test::*;

// The same sends through both. The first two fill a ring exactly; those behind them take it round and round.
const AROUND: [Step; 16] = [
    Carry(4096, 1),
    Carry(4096, 0),
    Carry(3000, 0),
    Carry(2500, 28),
    Drain(Again),
    Carry(1, 28),
    Carry(4095, 27),
    Carry(4096, 28),
    Carry(7, 3),
    Carry(4001, 28),
    Carry(4096, 0),
    Carry(123, 28),
    Drain(Again),
    Carry(4096, 28),
    Carry(4096, 28),
    Drain(Again),
];

// 17 sends of 28 duplicates and one of 8 leave 28 free places of 512 in a ring, and one duplicate more leaves 27.
const PLACES: [Step; 5] = [
    Carry(1, 8),
    Carry(1, 1),
    Carry(1, 28),
    Carry(2, 27),
    Drain(Again),
];

// A line that was shut keeps its first code, gives what waits, and then ends. `Limit` comes before all of that.
const SHUT: [Step; 8] = [
    Carry(3, 2),
    Shut(0),
    Shut(7),
    Send(1, 0, Err(Broken(32))),
    Send(0, 0, Err(Limit)),
    Receive(0, 28, Err(Limit)),
    Drain(Pipe),
    Send(1, 0, Err(Broken(32))),
];

// Takes a new ring and a new parcel line through the steps of each.
fn both(rt: &impl Abort, ring: &[Step], parcel: &[Step]) -> Result<(), Fail> {
    Driver::new(Ring::new()).follow(rt, ring)?;
    Driver::new(Parcel::new()).follow(rt, parcel)
}

fn carry_all<L: Line + Hosted + Drop>(rt: &impl Abort, line: L) -> Result<(), Fail> {
    let mut driver = Driver::new(line);
    driver.follow(rt, &AROUND)?;
    driver.follow(rt, &[Carry(1, 28); 17])?;
    driver.follow(rt, &PLACES)?;
    driver.follow(rt, &SHUT)
}

#[test]
fn both_carry_the_same_sends(rt: HostRuntime) -> Result<(), Fail> {
    carry_all(&rt, Ring::new())?;
    carry_all(&rt, Parcel::new())
}

// Sends fill a ring and a parcel line to the last byte.
const FULL_RING: [Step; 12] = [
    Send(4096, 0, Ok(4096)),
    Stand(4096, 4096, 0),
    Send(4096, 0, Ok(4096)),
    Stand(8192, 0, 0),
    Send(1, 0, Err(Again)),
    Receive(1, 28, Ok((1, 0))),
    Stand(8191, 1, 0),
    Send(2, 3, Ok(1)),
    Stand(8192, 0, 0),
    Receive(8191, 28, Ok((8191, 0))),
    Receive(8192, 28, Ok((1, 3))),
    Stand(0, 8192, 0),
];

const FULL_PARCEL: [Step; 11] = [
    Send(4096, 0, Ok(4096)),
    Stand(4096, 0, 0),
    Send(4096, 0, Err(Again)),
    Receive(1, 28, Ok((1, 0))),
    Stand(4095, 0, 0),
    Send(2, 3, Err(Again)),
    Drain(Again),
    Stand(0, 4096, 0),
    Send(2, 3, Ok(2)),
    Receive(8192, 28, Ok((1, 3))),
    Receive(8192, 28, Ok((1, 0))),
];

#[test]
fn both_are_exactly_full(rt: HostRuntime) -> Result<(), Fail> {
    both(&rt, &FULL_RING, &FULL_PARCEL)
}

// A ring with 28 free places takes bytes, with 27 it takes none.
const PLACES_RING: [Step; 11] = [
    Send(1, 8, Ok(1)),
    Stand(18, 8174, 0),
    Send(1, 1, Ok(1)),
    Stand(19, 0, 0),
    Send(1, 0, Err(Again)),
    Receive(8192, 28, Ok((1, 28))),
    Stand(18, 8174, 0),
    Send(1, 28, Ok(1)),
    Stand(19, 0, 0),
    Send(1, 0, Err(Again)),
    Drain(Again),
];

const PLACES_PARCEL: [Step; 6] = [
    Send(3, 28, Ok(3)),
    Send(1, 0, Err(Again)),
    Receive(8192, 28, Ok((1, 28))),
    Receive(8192, 28, Ok((1, 0))),
    Receive(8192, 28, Ok((1, 0))),
    Receive(8192, 28, Err(Again)),
];

#[test]
fn a_ring_wants_28_free_places(rt: HostRuntime) -> Result<(), Fail> {
    let mut ring = Driver::new(Ring::new());
    ring.follow(&rt, &[Send(1, 28, Ok(1)); 17])?;
    ring.follow(&rt, &PLACES_RING)?;
    Driver::new(Parcel::new()).follow(&rt, &PLACES_PARCEL)
}

// A ring gives cells up to 28 duplicates, and the bytes before the next that carries some.
const MOST: [Step; 7] = [
    Send(5, 20, Ok(5)),
    Send(5, 8, Ok(5)),
    Send(5, 1, Ok(5)),
    Receive(100, 28, Ok((10, 28))),
    Receive(3, 28, Ok((3, 1))),
    Receive(100, 28, Ok((2, 0))),
    Receive(100, 28, Err(Again)),
];

#[test]
fn a_ring_gives_as_much_as_it_may(rt: HostRuntime) -> Result<(), Fail> {
    Driver::new(Ring::new()).follow(&rt, &MOST)
}

// The code that a line is shut with first is kept, whatever comes later.
const SHUT_WITH_CODE: [Step; 5] = [
    Shut(104),
    Shut(0),
    Send(1, 0, Err(Broken(104))),
    Receive(1, 28, Err(Pipe)),
    Receive(1, 27, Err(Limit)),
];

#[test]
fn both_are_shut_with_their_first_code(rt: HostRuntime) -> Result<(), Fail> {
    both(&rt, &SHUT_WITH_CODE, &SHUT_WITH_CODE)
}

const LIMITS: [Step; 9] = [
    Send(0, 0, Err(Limit)),
    Send(4097, 0, Err(Limit)),
    Send(1, 29, Err(Limit)),
    Receive(1, 27, Err(Limit)),
    Receive(1, 28, Err(Again)),
    Send(4096, 28, Ok(4096)),
    Receive(0, 28, Err(Limit)),
    Receive(1, 27, Err(Limit)),
    Receive(1, 28, Ok((1, 28))),
];

#[test]
fn both_keep_the_limits(rt: HostRuntime) -> Result<(), Fail> {
    both(&rt, &LIMITS, &LIMITS)
}
