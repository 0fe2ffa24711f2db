//! A run of three members: an election, writes, and a leader whose writes are cut off by the next one.
ghost use Rattle.std.specs.Prelude.{◌≡◌, ◌≤◌, ◌∷◌, [], length, IfOk};

use kp_model::{Body, Bytes, Items, NoMemory, Role};
use kp_raft::{AppendMail, Mail, Raft, RaftEvent, RaftOut};
use std::alloc::Global;

// What happens: to a member, or a message by its number, counted from 1.
#[derive(Clone, Copy)]
enum Act {
    Timeout(usize),
    Deliver(usize),
    Beat(usize),
    Write(usize),
    Compact(usize),
    Forward(usize),
}

// A line: what happens, and the role, the term, the last index and the commit index of the member that it happens to.
struct Row(Act, Role, u64, u64, u64);

// A member is elected, and two entries are committed on two members.
const FIRST: &[Row] = &[
    Row(Act::Timeout(1), Role::Candidate, 1, 0, 0),
    Row(Act::Deliver(1), Role::Follower, 1, 0, 0),
    Row(Act::Deliver(3), Role::Leader, 1, 1, 0),
    Row(Act::Beat(1), Role::Leader, 1, 1, 0),
    Row(Act::Deliver(4), Role::Follower, 1, 1, 0),
    Row(Act::Deliver(6), Role::Leader, 1, 1, 1),
    Row(Act::Write(1), Role::Leader, 1, 2, 1),
    Row(Act::Beat(1), Role::Leader, 1, 2, 1),
    Row(Act::Deliver(7), Role::Follower, 1, 2, 1),
    Row(Act::Deliver(9), Role::Leader, 1, 2, 2),
];

// Two more reach nobody, and are cut off by the next leader.
const CUT_OFF: &[Row] = &[
    Row(Act::Write(1), Role::Leader, 1, 3, 2),
    Row(Act::Write(1), Role::Leader, 1, 4, 2),
    Row(Act::Timeout(2), Role::Candidate, 2, 2, 1),
    Row(Act::Deliver(11), Role::Follower, 2, 0, 0),
    Row(Act::Deliver(12), Role::Leader, 2, 3, 1),
    Row(Act::Beat(2), Role::Leader, 2, 3, 1),
    Row(Act::Deliver(13), Role::Follower, 2, 3, 2),
    Row(Act::Deliver(15), Role::Leader, 2, 3, 3),
    Row(Act::Write(2), Role::Leader, 2, 4, 3),
    Row(Act::Beat(2), Role::Leader, 2, 4, 3),
    Row(Act::Deliver(16), Role::Follower, 2, 4, 3),
    Row(Act::Deliver(18), Role::Leader, 2, 4, 4),
];

// An image stands for the two, and the member that has none gets it.
const IMAGE: &[Row] = &[
    Row(Act::Compact(1), Role::Leader, 1, 2, 2),
    Row(Act::Beat(1), Role::Leader, 1, 2, 2),
    Row(Act::Deliver(11), Role::Follower, 1, 2, 2),
    Row(Act::Deliver(12), Role::Leader, 1, 2, 2),
];

// A forwarded body reaches the leader three times. The first time the node proposes it; by itself it changes nothing.
const FORWARDED: &[Row] = &[
    Row(Act::Forward(1), Role::Leader, 1, 2, 2),
    Row(Act::Write(1), Role::Leader, 1, 3, 2),
    Row(Act::Forward(1), Role::Leader, 1, 3, 2),
    Row(Act::Forward(1), Role::Leader, 1, 3, 2),
];

// The members, and all messages that were ever sent, with their receivers.
#[derive(Drop)]
struct Cluster {
    members: Vec<Raft<Bytes>>,
    sent: Vec<(u8, Mail<Bytes>)>,
}

#[test]
fn a_run_is_as_the_rules_say(rt: HostRuntime) -> Result<(), NoMemory> {
    let alloc = rt.alloc();
    for rest in [CUT_OFF, IMAGE, FORWARDED] {
        assert!(rt; is_run(alloc, rest)?);
    }
    Ok(())
}

// Whether each line shows what it should, of the beginning and of the rest.
fn is_run(alloc: Global, rest: &[Row]) -> Result<bool, NoMemory> {
    let mut cluster = Cluster {
        members: Vec::new(alloc),
        sent: Vec::new(alloc),
    };
    let same = run(alloc, &mut cluster, rest);
    drop(cluster);
    same
}

fn run(alloc: Global, cluster: &mut Cluster, rest: &[Row]) -> Result<bool, NoMemory> {
    for node in 1..4 {
        add_member(alloc, &mut cluster.members, node)?;
    }
    Ok(are_shown(alloc, cluster, FIRST)? && are_shown(alloc, cluster, rest)?)
}

fn are_shown(alloc: Global, cluster: &mut Cluster, rows: &[Row]) -> Result<bool, NoMemory> {
    for row in rows {
        if !is_shown(alloc, cluster, row)? {
            return Ok(false);
        }
    }
    Ok(true)
}

fn add_member(alloc: Global, members: &mut Vec<Raft<Bytes>>, node: u8) -> Result<(), NoMemory>
    requires { (1 ≤ node) × (node ≤ 3) }
{
    let mut raft = Raft::new(alloc, node, 3, 0, 0, (0, 0), &[])?;
    let ready = raft.ready();
    members.push(raft)?;
    ready
}

// Whether the line shows what it should. What the step sends is added to what was sent.
fn is_shown(alloc: Global, cluster: &mut Cluster, row: &Row) -> Result<bool, NoMemory> {
    let Some((node, turn)) = turn_of(alloc, cluster.sent.as_slice(), row.0)? else {
        return Ok(false);
    };
    let Some(raft) = cluster.members.get_mut(node.wrapping_sub(1)) else {
        drop(turn);
        return Ok(false);
    };
    let out = step(alloc, raft, turn)?;
    let same = is_at(raft, row);
    let ready = raft.ready();
    send(&mut cluster.sent, out)?;
    ready?;
    Ok(same)
}

// Whether the member is where the line says.
fn is_at(raft: &Raft<Bytes>, row: &Row) -> bool {
    let Row(_, role, term, last, commit) = row;
    raft.role() == *role && raft.term() == *term && raft.last() == *last && raft.commit() == *commit
}

// What happens to a member.
#[derive(Drop)]
enum Turn {
    Timeout,
    Beat,
    Write,
    Compact,
    Mail(Mail<Bytes>),
}

// The member that it happens to, and what. None where there is no such message.
fn turn_of(
    alloc: Global,
    sent: &[(u8, Mail<Bytes>)],
    act: Act,
) -> Result<Option<(usize, Turn)>, NoMemory> {
    match act {
        Act::Timeout(node) => Ok(Some((node, Turn::Timeout))),
        Act::Beat(node) => Ok(Some((node, Turn::Beat))),
        Act::Write(node) => Ok(Some((node, Turn::Write))),
        Act::Compact(node) => Ok(Some((node, Turn::Compact))),
        Act::Forward(node) => Ok(Some((node, Turn::Mail(forward())))),
        Act::Deliver(number) => match sent.get(number.wrapping_sub(1)) {
            None => Ok(None),
            Some((to, mail)) => Ok(Some((*to as usize, Turn::Mail(mail.copy(alloc)?)))),
        },
    }
}

// A body that member 2 forwards in term 1.
fn forward() -> Mail<Bytes> {
    Mail::Forward {
        term: 1,
        from: 2,
        body: Body::Noop,
    }
}

fn step(alloc: Global, raft: &mut Raft<Bytes>, turn: Turn) -> Result<RaftOut<Bytes>, NoMemory> {
    match turn {
        Turn::Timeout => raft.step(RaftEvent::Timeout),
        Turn::Beat => beat(alloc, raft),
        Turn::Write => write(alloc, raft),
        Turn::Compact => compact(raft),
        Turn::Mail(mail) => deliver(raft, mail),
    }
}

// A beat, with an image for each peer that lags.
fn beat(alloc: Global, raft: &mut Raft<Bytes>) -> Result<RaftOut<Bytes>, NoMemory> {
    let images = images_of(alloc, raft.lagging())?;
    let index = raft.commit();
    raft.step(RaftEvent::Beat { index, images })
}

fn images_of(alloc: Global, count: u32) -> Result<Items<Bytes>, NoMemory>
    ensures { IfOk result (λ images. length images ≡ count) }
{
    let mut images = Items::new(alloc);
    for _ in 0..count {
        images.push(Bytes::from_vec(Vec::new(alloc)))?;
    }
    Ok(images)
}

// What is committed becomes the base.
fn compact(raft: &mut Raft<Bytes>) -> Result<RaftOut<Bytes>, NoMemory> {
    let index = raft.commit();
    raft.step(RaftEvent::Compact { index })
}

// One more entry of a leader.
fn write(alloc: Global, raft: &mut Raft<Bytes>) -> Result<RaftOut<Bytes>, NoMemory> {
    let bodies = one_body(alloc)?;
    match raft.role() {
        Role::Leader => raft.step(RaftEvent::Propose { time: 0, bodies }),
        Role::Candidate | Role::Follower => {
            drop(bodies);
            Err(NoMemory)
        }
    }
}

fn one_body(alloc: Global) -> Result<Items<Body>, NoMemory>
    ensures { IfOk result (λ bodies. bodies ≡ Body.Noop ∷ []) }
{
    let mut bodies = Items::new(alloc);
    bodies.push(Body::Noop)?;
    Ok(bodies)
}

fn deliver(raft: &mut Raft<Bytes>, mail: Mail<Bytes>) -> Result<RaftOut<Bytes>, NoMemory> {
    match mail {
        Mail::Append(append) => {
            let out = take(raft, &append);
            drop(append);
            out
        }
        other => raft.step(RaftEvent::Deliver(other)),
    }
}

// Takes an append whole.
fn take(raft: &mut Raft<Bytes>, append: &AppendMail) -> Result<RaftOut<Bytes>, NoMemory> {
    let count = append.entries.len();
    let weighed = raft.weigh(append);
    if weighed.matched as usize > count {
        return Err(NoMemory);
    }
    raft.take_append(append, count as u32)
}

// Adds what a step sends.
fn send(sent: &mut Vec<(u8, Mail<Bytes>)>, out: RaftOut<Bytes>) -> Result<(), NoMemory> {
    let RaftOut {
        image,
        records,
        mail,
        ..
    } = out;
    drop(image);
    drop(records);
    for item in mail.into_vec() {
        sent.push(item)?;
    }
    Ok(())
}
