// Functions that are proved only if these types may cross threads, at any value that may be sent.
use kp_turn::{StopSeat, StopWord, Storied, Turn, TurnSeat};

fn is_sent<X: Send>(_value: &X) {}

fn is_shared<X: Sync>(_value: &X) {}

fn a_turn_crosses<T: Storied + Send>(turn: &Turn<T>) {
    is_sent(turn);
    is_shared(turn);
}

fn a_seat_crosses<T: Storied + Send>(seat: &TurnSeat<T>) {
    is_sent(seat);
}

fn a_stop_word_crosses(word: &StopWord, seat: &StopSeat) {
    is_sent(word);
    is_shared(word);
    is_sent(seat);
}
