use line::{Hosted, Line, LineView};
use protocol::{OwnedFd, Refusal};
use std::array;
use std::process::Abort;
use std::test::*;

// Stands in the buffers of a receive where nothing was written.
const BLANK: u8 = 0xff;

// The places are of the type that a line fills, so that none can be an Option.
const NO_FD: OwnedFd = OwnedFd(u32::MAX);

// The byte at a place of the stream that is sent: its period has no factor in common with a ring's size.
// The casts here keep their numbers.
fn byte_at(place: usize) -> u8 {
    (place % 251) as u8
}

// The duplicate at a place of those that are sent.
fn fd_at(place: usize) -> OwnedFd {
    OwnedFd((place % 1024) as u32)
}

// What a send answers.
type Sent = Result<usize, Refusal>;

// What a receive answers.
type Received = Result<(usize, usize), Refusal>;

// What a call is expected to answer, and how the line is expected to stand.
// The steps are data, so that one table drives both kinds of line, and a failure names the place of its step.
#[derive(Clone, Copy)]
pub(crate) enum Step {
    // so many bytes and duplicates are sent
    Send(usize, usize, Sent),
    // so many bytes and places are offered
    Receive(usize, usize, Received),
    // so many bytes and duplicates are carried over, with receives where the line takes no more
    Carry(usize, usize),
    // all that waits is received, and the last receive refused
    Drain(Refusal),
    // the host shuts the line with a code
    Shut(u32),
    // so many cells wait, the window is so large, and the shut code is this
    Stand(usize, usize, u32),
}

// A line, and how much has gone in and come out of it.
#[derive(Drop)]
pub(crate) struct Driver<L> {
    line: L,
    // the place of the step that is taken, for messages
    step: usize,
    bytes_in: usize,
    bytes_out: usize,
    fds_in: usize,
    fds_out: usize,
    // the place of the byte that carries each duplicate
    carriers: [usize; 1024],
}

impl<L: Line + Hosted> Driver<L> {
    pub(crate) fn new(line: L) -> Driver<L> {
        Driver {
            line,
            step: 0,
            bytes_in: 0,
            bytes_out: 0,
            fds_in: 0,
            fds_out: 0,
            carriers: [0; 1024],
        }
    }

    // Sends the next bytes of the stream, with the next duplicates on the first.
    fn send(&mut self, bytes: usize, fds: usize) -> Sent {
        let stream: [u8; 4097] = array::from_fn(|i| byte_at(self.bytes_in.wrapping_add(i)));
        let numbers: [OwnedFd; 29] = array::from_fn(|i| fd_at(self.fds_in.wrapping_add(i)));
        let fds = fds.min(29);
        let n = self.line.send(&stream[..bytes.min(4097)], &numbers[..fds])?;
        for fd in &numbers[..fds] {
            // the cast keeps the number
            if let Some(carrier) = self.carriers.get_mut(fd.0 as usize) {
                *carrier = self.bytes_in;
            }
        }
        self.bytes_in = self.bytes_in.wrapping_add(n);
        self.fds_in = self.fds_in.wrapping_add(fds);
        Ok(n)
    }

    // Receives up to so many bytes, and looks that they go on where the last ones ended, each duplicate with its byte.
    fn receive(&mut self, rt: &impl Abort, asked: usize, places: usize) -> Received {
        let mut bytes = [BLANK; 8193];
        let mut fds = [NO_FD; 29];
        let answer = self
            .line
            .receive(&mut bytes[..asked.min(8193)], &mut fds[..places.min(29)]);
        let (n, k) = answer.unwrap_or((0, 0));
        self.take_bytes(rt, &bytes, n);
        self.take_fds(rt, &fds, k);
        answer
    }

    // The first n bytes are the next of the stream, and nothing is written behind them.
    fn take_bytes(&mut self, rt: &impl Abort, bytes: &[u8], n: usize) {
        let step = self.step;
        let (given, behind) = bytes.split_at(n.min(bytes.len()));
        // the place of a byte says which one of the stream it has to be
        for (i, byte) in given.iter().enumerate() {
            assert_eq!(rt;
                *byte,
                byte_at(self.bytes_out.wrapping_add(i)),
                "step {step}: a byte"
            );
        }
        assert!(rt;
            behind.iter().all(|byte| *byte == BLANK),
            "step {step}: a place behind the bytes"
        );
        self.bytes_out = self.bytes_out.wrapping_add(n);
    }

    // As `take_bytes`, but for what is expected: the first k duplicates are the next ones, the bytes that carry them have come out, and the next one does not.
    fn take_fds(&mut self, rt: &impl Abort, fds: &[OwnedFd], k: usize) {
        let step = self.step;
        let (given, behind) = fds.split_at(k.min(fds.len()));
        // the place of a duplicate says which one it has to be
        for (i, fd) in given.iter().enumerate() {
            let place = self.fds_out.wrapping_add(i);
            assert_eq!(rt; *fd, fd_at(place), "step {step}: a duplicate");
            assert!(rt;
                self.carrier(place) < self.bytes_out,
                "step {step}: a duplicate before its byte"
            );
        }
        assert!(rt;
            behind.iter().all(|fd| *fd == NO_FD),
            "step {step}: a place behind the duplicates"
        );
        self.fds_out = self.fds_out.wrapping_add(k);
        if self.fds_out < self.fds_in {
            assert!(rt;
                self.carrier(self.fds_out) >= self.bytes_out,
                "step {step}: a byte before its duplicate"
            );
        }
    }

    fn carrier(&self, place: usize) -> usize {
        self.carriers[place % 1024]
    }

    // Sends so many bytes, and receives where the line takes no more, until it has taken all.
    fn carry(&mut self, rt: &impl Abort, mut bytes: usize, mut fds: usize) -> Result<(), Fail> {
        let step = self.step;
        // a bound, so that a line that is wrong ends the test
        for _ in 0..10_000 {
            // a line that takes no more is no failure here, so `?` does not do
            match self.send(bytes, fds) {
                Ok(n) => {
                    bytes = bytes.saturating_sub(n);
                    fds = 0;
                }
                Err(Refusal::Again) => {
                    let _ = self.receive(rt, 700, 28);
                }
                Err(why) => return Err(Fail::new(format_args!("step {step}: {why}"))),
            }
            if bytes == 0 {
                return Ok(());
            }
        }
        Err(Fail::new(format_args!("step {step}: the line takes no more")))
    }

    // Receives until nothing waits; answers the last refusal.
    fn drain(&mut self, rt: &impl Abort) -> Result<Refusal, Fail> {
        let step = self.step;
        // a bound, so that a line that is wrong ends the test
        for _ in 0..10_000 {
            if let Err(why) = self.receive(rt, 300, 28) {
                assert_eq!(rt;
                    self.bytes_out,
                    self.bytes_in,
                    "step {step}: bytes that have come out"
                );
                assert_eq!(rt;
                    self.fds_out,
                    self.fds_in,
                    "step {step}: duplicates that have come out"
                );
                return Ok(why);
            }
        }
        Err(Fail::new(format_args!("step {step}: the line is never empty")))
    }

    fn take_step(&mut self, rt: &impl Abort, wanted: Step) -> Result<(), Fail> {
        let step = self.step;
        match wanted {
            Step::Send(bytes, fds, answer) => {
                assert_eq!(rt; self.send(bytes, fds), answer, "step {step}: a send");
            }
            Step::Receive(asked, places, answer) => {
                assert_eq!(rt;
                    self.receive(rt, asked, places),
                    answer,
                    "step {step}: a receive"
                );
            }
            Step::Carry(bytes, fds) => self.carry(rt, bytes, fds)?,
            Step::Drain(why) => {
                assert_eq!(rt; self.drain(rt)?, why, "step {step}: the last refusal");
            }
            Step::Shut(code) => self.line.shut(code),
            Step::Stand(waiting, window, shut) => {
                let wanted = LineView {
                    waiting,
                    window,
                    shut,
                };
                assert_eq!(rt;
                    self.line.view(),
                    wanted,
                    "step {step}: how the line stands"
                );
            }
        }
        Ok(())
    }

    // Takes the steps in their order.
    pub(crate) fn follow(&mut self, rt: &impl Abort, steps: &[Step]) -> Result<(), Fail> {
        // a failure names the place of its step
        for (i, step) in steps.iter().enumerate() {
            self.step = i;
            self.take_step(rt, *step)?;
        }
        Ok(())
    }
}
