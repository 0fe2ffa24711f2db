//! Entries through a cluster of three members: proposed to a leader, sent by a Beat, taken by both followers, answered,
//! and committed. It is timed from outside, by bench/raft.sh.
#![tactic(auto)]

ghost use Rattle.std.specs.Prelude.{◌≤◌, ◌^◌, IfOk, IsTrue};
ghost use Rattle.std.specs.List.{list_all};
ghost use Rattle.kp_model.specs.Grammar.{is_body};

use anyhow::Result;
use kp_model::{Body, Bytes, Cmd, Items, NoMemory, Role, Text};
use kp_raft::{AppendMail, Mail, Mails, Raft, RaftEvent, RaftOut};
use std::alloc::Global;
use std::env;

fn main(rt: HostRuntime) -> Result<()> {
    let mut args = env::args(&rt)?;
    let _program = args.next();
    let rounds = number(args.next());
    let data = vec![in rt.alloc(); 7u8; 100]?;
    match go_round(rt.alloc(), rounds, &data) {
        Ok(commit) => println!(rt; "{rounds} messages, commit index {commit}")?,
        Err(_) => println!(rt; "no memory")?,
    }
    Ok(())
}

fn number(word: Option<String>) -> u64 {
    match word {
        Some(word) => word.as_str().parse::<u64>().unwrap_or(1),
        None => 1,
    }
}

fn go_round(alloc: Global, rounds: u64, data: &[u8]) -> Result<u64, NoMemory> {
    let mut cluster = Vec::new(alloc);
    let gone = run(alloc, rounds, data, &mut cluster);
    drop(cluster);
    gone
}

fn run(
    alloc: Global,
    rounds: u64,
    data: &[u8],
    cluster: &mut Vec<Raft<Bytes>>,
) -> Result<u64, NoMemory> {
    for node in 1..4 {
        add(alloc, cluster, node)?;
    }
    elect(alloc, cluster)?;
    for _ in 0..rounds {
        send(alloc, cluster, data)?;
    }
    match cluster.get(0) {
        Some(leader) => Ok(leader.commit()),
        None => Ok(0),
    }
}

fn add(alloc: Global, cluster: &mut Vec<Raft<Bytes>>, node: u8) -> Result<(), NoMemory>
    requires from { 1 ≤ node }
    requires to { node ≤ 3 }
{
    cluster.push(Raft::new(alloc, node, 3, 0, 0, (0, 0), &[])?)?;
    Ok(())
}

// The first member becomes the leader.
fn elect(alloc: Global, cluster: &mut [Raft<Bytes>]) -> Result<(), NoMemory> {
    let asked = match cluster.get_mut(0) {
        Some(leader) => mail_of(leader.step(RaftEvent::Timeout)?),
        None => Items::new(alloc),
    };
    let answers = pass(alloc, cluster, asked.into_vec())?;
    let more = pass(alloc, cluster, answers)?;
    drop(more);
    Ok(())
}

// A message of 64 entries, from the proposal to the commit.
fn send(alloc: Global, cluster: &mut [Raft<Bytes>], data: &[u8]) -> Result<(), NoMemory> {
    let sent = match cluster.get_mut(0) {
        Some(leader) => lead(alloc, leader, data)?,
        None => Items::new(alloc),
    };
    let answers = pass(alloc, cluster, sent.into_vec())?;
    let more = pass(alloc, cluster, answers)?;
    drop(more);
    for member in cluster {
        forget(member)?;
    }
    Ok(())
}

fn lead(alloc: Global, leader: &mut Raft<Bytes>, data: &[u8]) -> Result<Mails<Bytes>, NoMemory> {
    let bodies = bodies_of(alloc, data)?;
    propose(leader, bodies)?;
    beat(alloc, leader)
}

fn propose(leader: &mut Raft<Bytes>, bodies: Items<Body>) -> Result<(), NoMemory>
    requires { IsTrue (list_all is_body bodies) }
{
    match leader.role() {
        Role::Leader => {
            let mail = mail_of(leader.step(RaftEvent::Propose { time: 1000, bodies })?);
            drop(mail);
            Ok(())
        }
        Role::Follower | Role::Candidate => {
            drop(bodies);
            Err(NoMemory)
        }
    }
}

fn beat(alloc: Global, leader: &mut Raft<Bytes>) -> Result<Mails<Bytes>, NoMemory> {
    let (base, _) = leader.base();
    let _commit = leader.commit();
    if leader.lagging() != 0 {
        return Err(NoMemory);
    }
    let out = leader.step(RaftEvent::Beat {
        index: base,
        images: Items::new(alloc),
    })?;
    Ok(mail_of(out))
}

#[tactic(auto, using(crate::proofs::Bodies::all_push))]
fn bodies_of(alloc: Global, data: &[u8]) -> Result<Items<Body>, NoMemory>
    ensures { IfOk result (λ bodies. IsTrue (list_all is_body bodies)) }
{
    let mut bodies = Items::new(alloc);
    for _ in 0..64 {
        let cmd = cmd_of(alloc, data)?;
        bodies.push(Body::Write {
            session: 1,
            epoch: 1,
            seq: 1,
            cmd,
        })?;
    }
    Ok(bodies)
}

fn cmd_of(alloc: Global, data: &[u8]) -> Result<Cmd, NoMemory> {
    let bytes = Vec::from_slice(alloc, data)?;
    let path = String::from_str(alloc, "/a")?;
    Ok(Cmd::SetData {
        path: Text::from_string(path),
        bytes: Bytes::from_vec(bytes),
        version: 0,
    })
}

// The messages of a step, whose records nobody keeps here.
fn mail_of(out: RaftOut<Bytes>) -> Mails<Bytes> {
    let RaftOut {
        records,
        mail,
        image,
        ..
    } = out;
    drop(records);
    drop(image);
    mail
}

// Gives each message to its receiver. What they answer comes back.
fn pass(
    alloc: Global,
    cluster: &mut [Raft<Bytes>],
    mut mails: Vec<(u8, Mail<Bytes>)>,
) -> Result<Vec<(u8, Mail<Bytes>)>, NoMemory> {
    let mut answers = Vec::new(alloc);
    for _ in 0..mails.len() {
        if let Some((to, mail)) = mails.pop() {
            add_answers(alloc, cluster, to, mail, &mut answers)?;
        }
    }
    Ok(answers)
}

fn add_answers(
    alloc: Global,
    cluster: &mut [Raft<Bytes>],
    to: u8,
    mail: Mail<Bytes>,
    answers: &mut Vec<(u8, Mail<Bytes>)>,
) -> Result<(), NoMemory> {
    match cluster.get_mut(to.saturating_sub(1) as usize) {
        Some(member) => {
            let mut more = deliver(alloc, member, mail)?.into_vec();
            if let Some(answer) = more.pop() {
                answers.push(answer)?;
            }
            Ok(())
        }
        None => {
            drop(mail);
            Ok(())
        }
    }
}

fn deliver(
    alloc: Global,
    member: &mut Raft<Bytes>,
    mail: Mail<Bytes>,
) -> Result<Mails<Bytes>, NoMemory> {
    match mail {
        Mail::Append(mail) => {
            let taken = take_whole(member, &mail);
            drop(mail);
            taken
        }
        Mail::AppendRep {
            term,
            from,
            ok,
            last,
            heard,
        } => {
            let out = member.step(RaftEvent::Deliver(Mail::AppendRep {
                term,
                from,
                ok,
                last,
                heard,
            }))?;
            Ok(mail_of(out))
        }
        Mail::VoteReq {
            term,
            from,
            last,
            last_term,
        } => {
            let out = member.step(RaftEvent::Deliver(Mail::VoteReq {
                term,
                from,
                last,
                last_term,
            }))?;
            Ok(mail_of(out))
        }
        Mail::VoteRep { term, from, yes } => {
            let out = member.step(RaftEvent::Deliver(Mail::VoteRep { term, from, yes }))?;
            Ok(mail_of(out))
        }
        other => {
            drop(other);
            Ok(Items::new(alloc))
        }
    }
}

fn take_whole(member: &mut Raft<Bytes>, mail: &AppendMail) -> Result<Mails<Bytes>, NoMemory> {
    let weighed = member.weigh(mail);
    let all = mail.entries.len() as u32;
    if all < weighed.matched {
        return Err(NoMemory);
    }
    let out = member.take_append(mail, all)?;
    Ok(mail_of(out))
}

// What is committed becomes the base, so that the log stays short.
fn forget(member: &mut Raft<Bytes>) -> Result<(), NoMemory> {
    let index = member.commit();
    let mail = mail_of(member.step(RaftEvent::Compact { index })?);
    drop(mail);
    Ok(())
}
