//! The connect request of a client: what it asks of the log, and how it is answered.

ghost use Rattle.std.specs.Prelude.{◌≡◌, [], false, true, unwrap_or};
ghost use Rattle.kp_step.specs.Handing.{is_refused as must_refuse, is_passwd as is_secret, held_timeout as held, opening as opens, refusal as refused, greeting as greeted};

use kp_model::limits::LAST_NUMBER;
use kp_model::{Body, Bytes, Origin, Session};
use kp_wire::{ConnectReply, ConnectRequest};

/// The least timeout that a session gets, in milliseconds.
const SHORTEST: i32 = 10_000;

/// The greatest.
const LONGEST: i32 = 100_000;

/// Whether a connect request is refused as it stands: its session number is below 0 or above 2^62, or it is another than
/// 0 and what comes with it is no password of 16 bytes.
pub fn is_refused(request: &ConnectRequest) -> bool
    ensures { result ≡ must_refuse request.now }
{
    if request.session <= 0 {
        return request.session < 0;
    }
    request.session as u64 > LAST_NUMBER || !is_passwd(&request.passwd)
}

// Whether it is a password: 16 bytes.
fn is_passwd(passwd: &Option<Bytes>) -> bool
    ensures { result ≡ is_secret passwd.now }
{
    match passwd {
        None => false,
        Some(bytes) => bytes.len() == 16,
    }
}

/// The timeout of a session whose client wishes this one, in milliseconds: between 10 and 100 seconds.
pub fn held_timeout(timeout: i32) -> u32
    ensures { result ≡ held timeout }
{
    if timeout < SHORTEST {
        return SHORTEST as u32;
    }
    if LONGEST < timeout {
        LONGEST as u32
    } else {
        timeout as u32
    }
}

/// What a connect request that isn't refused asks of the log: a new session, whose password is the connection's draw, or
/// the one of that number.
pub fn opening(request: &ConnectRequest, draw: [u8; 16], origin: Origin) -> Body
    requires { must_refuse request.now ≡ false }
    ensures { result ≡ opens origin draw request.now }
{
    if request.session <= 0 {
        return Body::OpenSession {
            timeout: held_timeout(request.timeout),
            passwd: draw,
            origin,
        };
    }
    Body::Attach {
        session: request.session as u64,
        passwd: passwd_in(&request.passwd),
        origin,
    }
}

// The password, where it is one.
fn passwd_in(passwd: &Option<Bytes>) -> [u8; 16]
    ensures { is_secret passwd.now ≡ true → result ≡ unwrap_or passwd.now [] }
{
    let mut made = [0; 16];
    if let Some(bytes) = passwd {
        if bytes.len() == 16 {
            made.copy_from_slice(bytes.as_slice());
        }
    }
    made
}

/// The reply to a connect request that is refused, which had the word `readOnly` or hadn't.
pub fn refusal(with_read_only: bool) -> ConnectReply
    ensures { result ≡ refused with_read_only }
{
    ConnectReply {
        timeout: 0,
        session: 0,
        passwd: [0; 16],
        with_read_only,
    }
}

/// The reply to a connect request that got the session of this number.
pub fn greeting(with_read_only: bool, id: u64, session: &Session) -> ConnectReply
    ensures { result ≡ greeted with_read_only id session.now }
{
    ConnectReply {
        timeout: session.timeout,
        session: id,
        passwd: session.passwd,
        with_read_only,
    }
}
