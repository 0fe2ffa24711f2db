//! With ample memory each kind of value can be made and copied.
ghost use Rattle.std.specs.Prelude.{IfOk, IsTrue};
ghost use Rattle.kp_model.specs.Grammar.{is_body};

use kp_model::{
    Acls, Body, Bytes, Cmd, Committed, Entry, Event, Items, NoMemory, Node, Origin, Reply, Session,
    Text,
};
use std::alloc::Global;
use std::test::Fail;

fn data(alloc: Global) -> Result<Bytes, NoMemory> {
    Ok(Bytes::from_vec(Vec::from_slice(alloc, b"data")?))
}

fn creation(alloc: Global) -> Result<Body, NoMemory>
    ensures { IfOk result (λ body. IsTrue (is_body body)) }
{
    Ok(Body::Write {
        session: 1,
        epoch: 2,
        seq: 3,
        cmd: Cmd::Create {
            path: Text::from_str(alloc, "/a")?,
            bytes: data(alloc)?,
            acl: Acls::everyone(alloc)?,
            flags: 0,
            stat: true,
        },
    })
}

fn node(alloc: Global) -> Result<Node, NoMemory> {
    Ok(Node {
        bytes: data(alloc)?,
        acl: Acls::everyone(alloc)?,
        czxid: 1,
        mzxid: 2,
        pzxid: 3,
        ctime: 4,
        mtime: 5,
        version: 6,
        cversion: 7,
        aversion: 8,
        owner: 9,
        created: 10,
    })
}

fn session(alloc: Global) -> Result<Session, NoMemory> {
    let mut ids = Items::new(alloc);
    ids.push(Text::from_str(alloc, "user:hash")?)?;
    Ok(Session {
        timeout: 30_000,
        passwd: [7; 16],
        epoch: 2,
        seq: 3,
        ids,
        holder: Origin {
            node: 1,
            boot: 2,
            conn: 3,
        },
    })
}

fn committed(alloc: Global) -> Result<Committed, NoMemory> {
    let mut events = Items::new(alloc);
    events.push(Event::Created(Text::from_str(alloc, "/a")?))?;
    events.push(Event::ChildrenChanged(Text::from_str(alloc, "/")?))?;
    Ok(Committed {
        index: 1,
        reply: Reply::Path(Text::from_str(alloc, "/a")?),
        events,
    })
}

fn is_entry_copied(alloc: Global, entry: &Entry) -> bool {
    entry.copy(alloc).is_ok()
}

fn is_node_copied(alloc: Global, node: &Node) -> bool {
    node.copy(alloc).is_ok()
}

fn is_session_copied(alloc: Global, session: &Session) -> bool {
    session.copy(alloc).is_ok()
}

fn is_answer_copied(alloc: Global, answer: &Committed) -> bool {
    answer.copy(alloc).is_ok()
}

#[test]
fn an_entry_is_made_and_copied(rt: HostRuntime) -> Result<(), Fail> {
    let entry = Entry::new(1, 1000, creation(rt.alloc())?)?;
    let copied = is_entry_copied(rt.alloc(), &entry);
    drop(entry);
    assert!(rt; copied);
    Ok(())
}

#[test]
fn a_node_is_copied(rt: HostRuntime) -> Result<(), Fail> {
    let node = node(rt.alloc())?;
    let copied = is_node_copied(rt.alloc(), &node);
    drop(node);
    assert!(rt; copied);
    Ok(())
}

#[test]
fn a_session_is_copied(rt: HostRuntime) -> Result<(), Fail> {
    let session = session(rt.alloc())?;
    let copied = is_session_copied(rt.alloc(), &session);
    drop(session);
    assert!(rt; copied);
    Ok(())
}

#[test]
fn an_answer_is_copied(rt: HostRuntime) -> Result<(), Fail> {
    let answer = committed(rt.alloc())?;
    let copied = is_answer_copied(rt.alloc(), &answer);
    drop(answer);
    assert!(rt; copied);
    Ok(())
}
