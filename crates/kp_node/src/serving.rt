//! A live connection whose requests joined its queue is answered, and what they hand in goes on its way.

ghost use Rattle.std.specs.Prelude.{◌≡◌, [], map, if◌then◌else◌, false, IfOk, IsOk, IsTrue, OnErr};
ghost use Rattle.std.specs.List.{list_all};
ghost use Rattle.kp_model.specs.Grammar.{is_body};
ghost use Rattle.kp_watch.specs.Watching.{dropped};
ghost use Rattle.kp_conn.specs.Connection.{is_lost};
ghost use Rattle.kp_node.specs.Serving.{IsEmptied, IsFinished, sent_to, Proposes, HandsOver, Serves};

use crate::handing::end_by;
use crate::joining::{Ground, join_all};
use crate::proposing::propose_all;
use crate::settling::{give_up, settle};
use kp_conn::{Conn, Fed, FedEnd};
use kp_entry::Records;
use kp_model::{Body, Items, NoMemory, View};
use kp_raft::{Mail, Mails, Raft, RaftOut};
use kp_snapshot::Image;
use kp_storage::Storage;
use kp_watch::Watches;
use std::alloc::Global;

/// What was handed in, as it leaves a member.
#[derive(Drop)]
pub struct Handed {
    /// What Raft keeps of it.
    pub records: Records,

    /// What goes to the leader.
    pub mail: Mails<Image>,
}

// Nothing was handed in.
pub(crate) fn none_handed(alloc: Global) -> Handed
    ensures { result ≡ record { records = []; mail = [] } }
{
    Handed {
        records: Records::new(alloc),
        mail: Items::new(alloc),
    }
}

// Bodies on their way to the leader.
fn send_all(alloc: Global, ground: Ground, forwards: Vec<Body>) -> Result<Mails<Image>, NoMemory>
    ensures { IfOk result (λ ms. ms ≡ map (sent_to ground) forwards.items) }
{
    let mut mails = Vec::new(alloc);
    for body in forwards {
        mails.push((ground.leader, forward(ground, body)))?;
    }
    Ok(Items::from_vec(mails))
}

// A body on its way to the leader.
fn forward(ground: Ground, body: Body) -> Mail<Image>
    ensures { (ground.leader, result) ≡ sent_to ground body }
{
    Mail::Forward {
        term: ground.term,
        from: ground.me,
        body,
    }
}

// Bodies go to Raft where there are any. Without memory nothing has changed; it takes none where there are none.
fn propose(
    alloc: Global,
    ground: Ground,
    raft: &mut Raft<Image>,
    bodies: Vec<Body>,
) -> Result<Records, NoMemory>
    requires { IsTrue (list_all is_body bodies.items) }
    ensures ok { IfOk result (λ rs. Proposes raft.old ground.now bodies.items rs raft.new) }
    ensures none { bodies.items ≡ [] → IsOk result }
    ensures err { OnErr result (raft.new ≡ raft.old) }
{
    if bodies.is_empty() {
        drop(bodies);
        return Ok(Records::new(alloc));
    }
    let RaftOut {
        image,
        records,
        mail,
        ..
    } = propose_all(alloc, raft, ground.now, Items::from_vec(bodies))?;
    drop(image);
    drop(mail);
    Ok(records)
}

/// Bodies go to Raft, and others become mail. Without memory nothing has changed; it takes none where there are none.
pub(crate) fn hand_over(
    alloc: Global,
    ground: Ground,
    raft: &mut Raft<Image>,
    bodies: Vec<Body>,
    forwards: Vec<Body>,
) -> Result<Handed, NoMemory>
    requires { IsTrue (list_all is_body bodies.items) }
    ensures ok { IfOk result (λ o. HandsOver ground raft.old bodies.items forwards.items o raft.new) }
    ensures none { bodies.items ≡ [] → forwards.items ≡ [] → IsOk result }
    ensures err { OnErr result (raft.new ≡ raft.old) }
{
    if forwards.is_empty() {
        drop(forwards);
        let records = propose(alloc, ground, raft, bodies)?;
        return Ok(Handed {
            records,
            mail: Items::new(alloc),
        });
    }
    match send_all(alloc, ground, forwards) {
        Err(none) => {
            drop(bodies);
            Err(none)
        }
        Ok(mail) => match propose(alloc, ground, raft, bodies) {
            Err(none) => {
                drop(mail);
                Err(none)
            }
            Ok(records) => Ok(Handed { records, mail }),
        },
    }
}

// A connection that was given up has no watches.
fn drop_lost(watches: &mut Watches, number: u64, conn: &Conn)
    ensures { watches.new ≡ (if is_lost conn.now.phase then dropped watches.old number else watches.old) }
{
    if conn.phase().is_lost() {
        watches.drop_conn(number);
    }
}

/// Serves what was read of a live connection of this number, by a member that stands so: its requests join, its writes go
/// into the storage and to Raft, or to the leader, and what can be answered on the committed state is. A connection whose
/// requests find no memory is given up.
pub(crate) fn serve(
    alloc: Global,
    ground: Ground,
    raft: &mut Raft<Image>,
    storage: &mut Storage,
    watches: &mut Watches,
    number: u64,
    conn: &mut Conn,
    fed: Fed,
) -> Handed
    requires live { is_lost conn.old.phase ≡ false }
    ensures { Serves ground number fed raft.old storage.old watches.old conn.old raft.new storage.new watches.new conn.new result }
{
    let last = storage.last();
    let mut bodies = Vec::new(alloc);
    let mut forwards = Vec::new(alloc);
    let Fed {
        connect,
        requests,
        end,
    } = fed;
    drop(connect);
    join_all(
        alloc,
        ground,
        storage,
        conn,
        requests,
        &mut bodies,
        &mut forwards,
    );
    match hand_over(alloc, ground, raft, bodies, forwards) {
        Err(_) => {
            storage.truncate(last);
            give_up(watches, number, conn);
            none_handed(alloc)
        }
        Ok(handed) => {
            drop_lost(watches, number, conn);
            let zxid = storage.applied();
            finish(
                alloc,
                &storage.committed(),
                zxid,
                watches,
                number,
                conn,
                end,
            );
            handed
        }
    }
}

/// Answers what can be answered of a connection of this number whose requests joined, and ends it where its bytes are no
/// frame. One that was given up stays so.
pub fn finish<V: View>(
    alloc: Global,
    view: &V,
    zxid: u64,
    watches: &mut Watches,
    number: u64,
    conn: &mut Conn,
    end: FedEnd,
)
    requires zxid { zxid ≡ (V.state view.now).applied }
    requires emptied { IsEmptied conn.old }
    ensures { IsFinished (V.state view.now) number end watches.old conn.old watches.new conn.new }
{
    if conn.phase().is_lost() {
        return;
    }
    settle(alloc, view, zxid, watches, number, conn);
    end_by(conn, end);
}
