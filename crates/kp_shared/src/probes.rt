// Functions that are proved only if these types may cross threads, at any node that may be sent.
use crate::kept::{Kept, Served};
use kp_turn::{Turn, TurnSeat};

fn is_sent<X: Send>(_value: &X) {}

fn is_shared<X: Sync>(_value: &X) {}

fn a_turn_crosses<K: Kept + Send>(turn: &Turn<Served<K>>, seat: &TurnSeat<Served<K>>) {
    is_sent(turn);
    is_shared(turn);
    is_sent(seat);
}
