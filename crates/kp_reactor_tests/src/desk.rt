// A small server over a reactor.
use kp_io::Took;
use kp_reactor::{Arrival, Line, Reactor, SocketIn, SocketOut, halves};
use std::alloc::{AllocError, Global};

/// What the server does with what comes.
#[derive(Clone, Copy, Drop)]
pub enum Manner {
    /// It says it back.
    Echo,

    /// It answers so many bytes to each piece, 0 to 250 one behind the other, over and over.
    Pour(usize),
}

/// A line of the server.
#[derive(Drop)]
struct Seat {
    number: u64,
    token: usize,
    line: Line<SocketIn, SocketOut>,
}

/// A server that gives its lines the numbers 1, 2 and so on.
#[derive(Drop)]
pub struct Desk {
    alloc: Global,
    reactor: Reactor,
    seats: Vec<Seat>,
    next: u64,
    manner: Manner,
}

// The bytes that are poured.
fn poured(alloc: Global, count: usize) -> Result<Vec<u8>, AllocError> {
    let mut bytes = Vec::new(alloc);
    let mut byte = 0u8;
    for _ in 0..count {
        if bytes.push(byte).is_err() {
            return Err(AllocError);
        }
        byte = if byte >= 250 { 0 } else { byte + 1 };
    }
    Ok(bytes)
}

// Answers what came. The answer is whether the line goes on.
fn answer(alloc: Global, manner: Manner, seat: &mut Seat, bytes: &[u8]) -> bool {
    match manner {
        Manner::Echo => seat.line.hand(bytes),
        Manner::Pour(count) => match poured(alloc, count) {
            Ok(bytes) => seat.line.hand(bytes.as_slice()),
            Err(_) => return false,
        },
    }
    seat.line.end().is_none()
}

// Takes one piece of a line that was told of, and answers it. The answer is whether the line goes on.
fn serve_seat(alloc: Global, manner: Manner, reactor: &mut Reactor, seat: &mut Seat) -> bool {
    seat.line.flow();
    if seat.line.has_rest() {
        return true;
    }
    let mut room = [0u8; 64];
    match seat.line.take(&mut room) {
        Ok(Took::Bytes(count)) => {
            answer(alloc, manner, seat, &room[..count])
                && reactor
                    .again(seat.token, seat.line.stream().socket())
                    .is_ok()
        }
        Ok(Took::Later) => true,
        Ok(Took::End) | Err(_) => false,
    }
}

impl Desk {
    /// A server without lines.
    pub fn new(alloc: Global, reactor: Reactor, manner: Manner) -> Desk {
        Desk {
            alloc,
            reactor,
            seats: Vec::new(alloc),
            next: 1,
            manner,
        }
    }

    /// How many lines there are.
    pub fn lines(&self) -> usize {
        self.seats.len()
    }

    // Gives a line that came its number.
    fn seat(&mut self, arrival: Arrival) -> bool {
        let Arrival { token, socket } = arrival;
        let Ok((stream, sink)) = halves(self.alloc, socket) else {
            return false;
        };
        let seat = Seat {
            number: self.next,
            token,
            line: Line::new(self.alloc, stream, sink),
        };
        self.reactor.name(token, self.next);
        self.next = self.next.saturating_add(1);
        let again = self.reactor.again(token, seat.line.stream().socket());
        self.seats.push(seat).is_ok() && again.is_ok()
    }

    // Takes in all that wait.
    fn take_in(&mut self) {
        for _ in 0..1_000 {
            match self.reactor.accept() {
                Ok(Some(arrival)) => {
                    self.seat(arrival);
                }
                Ok(None) | Err(_) => return,
            }
        }
    }

    // Serves the line of this number.
    fn serve(&mut self, number: u64) {
        let Some(at) = self.seats.iter().position(|seat| seat.number == number) else {
            return;
        };
        if !serve_seat(
            self.alloc,
            self.manner,
            &mut self.reactor,
            &mut self.seats[at],
        ) {
            self.reactor.close(self.seats[at].token);
            self.seats.swap_remove(at);
        }
    }

    /// Waits once, serves the lines that are told of, and takes in who waits. The answer is how many were told of.
    pub fn turn(&mut self, most: u64) -> usize {
        let Ok(told) = self.reactor.wait(most) else {
            return 0;
        };
        for at in 0..told.len() {
            self.serve(told[at]);
        }
        self.take_in();
        told.len()
    }

    /// Makes turns until nobody was told of in one that waited this long, and none was taken in, at most 10,000.
    pub fn settle(&mut self, most: u64) {
        for _ in 0..10_000 {
            let lines = self.lines();
            if self.turn(most) == 0 && self.lines() == lines {
                return;
            }
        }
    }
}
