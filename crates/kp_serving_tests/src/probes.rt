// Functions that are proved only if these types may cross threads, at any message and any node that may be sent.
use kp_links::{LinkSeat, Links};

fn is_sent<X: Send>(_value: &X) {}

fn is_shared<X: Sync>(_value: &X) {}

fn a_link_crosses<M: Drop + Send>(link: &Links<M>, seat: &LinkSeat<M>) {
    is_sent(link);
    is_shared(link);
    is_sent(seat);
}
