//! The first bytes of a connection: a word, or a connect request, which is refused or handed in.

ghost use Rattle.std.specs.Prelude.{◌≡◌, false, List, ℕ, IfOk, OnOk, OnErr};
ghost use Rattle.kp_conn.specs.declared.phase.Phase.TheVariants as phases;
ghost use Rattle.kp_conn.specs.Connection.{opened};
ghost use Rattle.kp_step.specs.Handing.{refusal as refused};
ghost use Rattle.kp_watch.specs.declared.watch.Watch.{Watch};
ghost use Rattle.kp_node.specs.FirstBytes.{Sends, opened_by, Makes, asks_for, reads_first, is_word, word_in, IsConnecting, TakesFirst, TakesWaiting};

use crate::connect::{is_refused, opening, refusal};
use crate::joining::{Ground, hand};
use crate::proposing::take_in_back;
use crate::serving::{Handed, hand_over, none_handed};
use crate::taking::Taken;
use kp_conn::{Conn, Fed, FedEnd};
use kp_model::{Body, NoMemory, Origin};
use kp_raft::Raft;
use kp_snapshot::Image;
use kp_storage::Storage;
use kp_wire::ConnectRequest;
use std::alloc::Global;

/// What the first bytes of a connection are: a word that is to be answered, or what was taken.
#[derive(Drop)]
pub(crate) enum First {
    Word([u8; 4]),
    Taken(Taken),
}

// A body of an own client is handed in and goes on its way. Without memory nothing has changed.
fn send(
    alloc: Global,
    ground: Ground,
    raft: &mut Raft<Image>,
    storage: &mut Storage,
    body: Body,
) -> Result<Handed, NoMemory>
    ensures ok { IfOk result (λ o. Sends ground raft.old storage.old raft.new storage.new o (opened_by ground storage.old body)) }
    ensures raft { OnErr result (raft.new ≡ raft.old) }
    ensures storage { OnErr result (storage.new ≡ storage.old) }
{
    let last = storage.last();
    let mut bodies = Vec::new(alloc);
    let mut forwards = Vec::new(alloc);
    match hand(ground, storage, body, &mut bodies, &mut forwards) {
        Err(none) => {
            drop(bodies);
            drop(forwards);
            Err(none)
        }
        Ok(()) => match hand_over(alloc, ground, raft, bodies, forwards) {
            Ok(handed) => Ok(handed),
            Err(none) => {
                take_in_back(storage, last);
                Err(none)
            }
        },
    }
}

// A connect request is refused, which had the word `readOnly` or hadn't. Without memory nothing has changed.
fn refuse(conn: &mut Conn, with_read_only: bool) -> Result<(), NoMemory>
    ensures ok { OnOk result (conn.new ≡ opened (refused with_read_only) 0 conn.old) }
    ensures err { OnErr result (conn.new ≡ conn.old) }
{
    conn.connect(&refusal(with_read_only), 0)
}

// The connection of this number in this run of its node.
fn origin_of(ground: Ground, number: u64) -> Origin
    ensures { result ≡ record { node = ground.me; boot = ground.boot; conn = number } }
{
    Origin {
        node: ground.me,
        boot: ground.boot,
        conn: number,
    }
}

// A connect request of the connection of this number, with this draw: it is refused, or the connection ends where no
// leader is known, or what it asks of the log is handed in. Without memory nothing has changed.
fn ask(
    alloc: Global,
    ground: Ground,
    raft: &mut Raft<Image>,
    storage: &mut Storage,
    number: u64,
    draw: [u8; 16],
    conn: &mut Conn,
    request: &ConnectRequest,
) -> Result<Handed, NoMemory>
    ensures ok { IfOk result (λ o. (ws : List Watch) → Makes ground raft.old storage.old raft.new storage.new conn.new o (asks_for ground number draw storage.old ws conn.old request.now)) }
    ensures raft { OnErr result (raft.new ≡ raft.old) }
    ensures storage { OnErr result (storage.new ≡ storage.old) }
    ensures conn { OnErr result (conn.new ≡ conn.old) }
{
    let _last = storage.last();
    if is_refused(request) {
        refuse(conn, request.read_only.is_some())?;
        return Ok(none_handed(alloc));
    }
    if !ground.is_led(storage) {
        conn.close(false);
        return Ok(none_handed(alloc));
    }
    let body = opening(request, draw, origin_of(ground, number));
    send(alloc, ground, raft, storage, body)
}

// What was read of a connection of this number that isn't live, and is no word, is served. Without memory nothing has
// changed.
fn serve_first(
    alloc: Global,
    ground: Ground,
    raft: &mut Raft<Image>,
    storage: &mut Storage,
    number: u64,
    draw: [u8; 16],
    conn: &mut Conn,
    connect: &Option<ConnectRequest>,
    end: FedEnd,
) -> Result<Handed, NoMemory>
    requires { is_word end ≡ false }
    ensures ok { IfOk result (λ o. (text : List ℕ → List ℕ) (ws : List Watch) → Makes ground raft.old storage.old raft.new storage.new conn.new o (reads_first ground number draw text storage.old ws conn.old connect.now end)) }
    ensures raft { OnErr result (raft.new ≡ raft.old) }
    ensures storage { OnErr result (storage.new ≡ storage.old) }
    ensures conn { OnErr result (conn.new ≡ conn.old) }
{
    let _last = storage.last();
    match connect {
        Some(request) => ask(alloc, ground, raft, storage, number, draw, conn, request),
        None => {
            if matches!(end, FedEnd::Bad { .. }) {
                conn.close(false);
            }
            Ok(none_handed(alloc))
        }
    }
}

// The word, where the bytes are one.
fn word_of(end: FedEnd) -> Option<[u8; 4]>
    ensures { result ≡ word_in end }
{
    match end {
        FedEnd::Word(word) => Some(word),
        FedEnd::Ok | FedEnd::Bad { .. } => None,
    }
}

/// A new connection of this number, with this draw, takes bytes. A word leaves it as it was, since it is answered from the
/// facts of a node that has not taken it yet. Without memory nothing has changed.
pub(crate) fn take_first(
    alloc: Global,
    ground: Ground,
    raft: &mut Raft<Image>,
    storage: &mut Storage,
    number: u64,
    draw: [u8; 16],
    conn: &mut Conn,
    bytes: &[u8],
) -> Result<First, NoMemory>
    requires { conn.old.phase ≡ phases.Fresh }
    ensures ok { IfOk result (λ f. TakesFirst ground number draw bytes.now raft.old storage.old conn.old raft.new storage.new conn.new f) }
    ensures raft { OnErr result (raft.new ≡ raft.old) }
    ensures storage { OnErr result (storage.new ≡ storage.old) }
    ensures conn { OnErr result (conn.new ≡ conn.old) }
{
    let beginning = conn.beginning()?;
    match conn.feed(bytes) {
        Err(none) => {
            drop(beginning);
            Err(none)
        }
        Ok(fed) => {
            let Fed {
                connect,
                requests,
                end,
            } = fed;
            drop(requests);
            match word_of(end) {
                Some(word) => {
                    drop(connect);
                    conn.begin_again(beginning);
                    Ok(First::Word(word))
                }
                None => {
                    let served = serve_first(
                        alloc, ground, raft, storage, number, draw, conn, &connect, end,
                    );
                    drop(connect);
                    match served {
                        Ok(handed) => {
                            drop(beginning);
                            Ok(First::Taken(Taken { handed, end }))
                        }
                        Err(none) => {
                            conn.begin_again(beginning);
                            Err(none)
                        }
                    }
                }
            }
        }
    }
}

/// A connection of this number whose connect request waits for its answer keeps bytes. Without memory nothing has changed.
pub(crate) fn take_waiting(alloc: Global, conn: &mut Conn, bytes: &[u8]) -> Result<Taken, NoMemory>
    requires { IsConnecting conn.old.phase }
    ensures ok { IfOk result (λ t. TakesWaiting bytes.now conn.old conn.new t) }
    ensures conn { OnErr result (conn.new ≡ conn.old) }
{
    let fed = conn.feed(bytes)?;
    let end = fed.end;
    drop(fed);
    Ok(Taken {
        handed: none_handed(alloc),
        end,
    })
}
