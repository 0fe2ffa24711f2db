//! With ample memory each kind of value that no run copies can be copied; that a copy equals its value is a clause.
use kp_act::{Act, Effect, Effects, Plan, Prepared};
use kp_cells::{Change, Changes, NodeValue};
use kp_model::{
    Acls, Bytes, Event, Events, Meta, NoMemory, Op, OpReply, Origin, Paths, ReadCmd, ReadReply,
    Reply, Seen, Session, Text,
};
use kp_prep::Decided;
use std::alloc::Global;
use std::test::Fail;

const META: Meta = Meta {
    czxid: 1,
    mzxid: 2,
    pzxid: 3,
    ctime: 4,
    mtime: 5,
    version: 6,
    cversion: 7,
    aversion: 8,
    owner: 9,
    created: 10,
    len: 1,
    kids: 11,
};

// The data of one byte.
fn data(alloc: Global) -> Result<Bytes, NoMemory> {
    Ok(Bytes::from_vec(Vec::from_slice(alloc, b"5")?))
}

// The answer of a creation.
fn prepared(alloc: Global) -> Result<Prepared, NoMemory> {
    let mut events = Events::new(alloc);
    events.push(Event::Created(Text::from_str(alloc, "/a")?))?;
    Ok(Prepared {
        reply: Reply::Path(Text::from_str(alloc, "/a")?),
        events,
    })
}

// A session.
fn session(alloc: Global) -> Session {
    Session {
        timeout: 30000,
        passwd: [7; 16],
        epoch: 1,
        seq: 0,
        ids: Paths::new(alloc),
        holder: Origin {
            node: 1,
            boot: 2,
            conn: 3,
        },
    }
}

// A node is made.
fn making(alloc: Global) -> Result<Effect, NoMemory> {
    Ok(Effect::Make {
        path: Text::from_str(alloc, "/a")?,
        bytes: data(alloc)?,
        acl: Acls::everyone(alloc)?,
        meta: META,
        up: META,
    })
}

// An effect of each kind.
fn add_effects(alloc: Global, effects: &mut Effects) -> Result<(), NoMemory> {
    effects.push(Effect::Nothing)?;
    effects.push(making(alloc)?)?;
    effects.push(Effect::Remove {
        path: Text::from_str(alloc, "/a")?,
        up: META,
        owner: 7,
    })?;
    effects.push(Effect::Set {
        path: Text::from_str(alloc, "/a")?,
        bytes: data(alloc)?,
        meta: META,
    })?;
    effects.push(Effect::SetAcl {
        path: Text::from_str(alloc, "/a")?,
        acl: Acls::everyone(alloc)?,
        meta: META,
    })
}

fn effects(alloc: Global) -> Result<Effects, NoMemory> {
    let mut effects = Effects::new(alloc);
    match add_effects(alloc, &mut effects) {
        Ok(()) => Ok(effects),
        Err(none) => {
            drop(effects);
            Err(none)
        }
    }
}

// A plan with these effects.
fn plan_of(alloc: Global, effects: Effects) -> Result<Plan, NoMemory> {
    match prepared(alloc) {
        Ok(prepared) => Ok(Plan {
            prepared,
            session: Some((7, Some(session(alloc)))),
            next: Some(8),
            effects,
        }),
        Err(none) => {
            drop(effects);
            Err(none)
        }
    }
}

// A plan with an effect of each kind.
fn plan(alloc: Global) -> Result<Plan, NoMemory> {
    plan_of(alloc, effects(alloc)?)
}

// A change of each kind.
fn add_changes(alloc: Global, changes: &mut Changes) -> Result<(), NoMemory> {
    let node = NodeValue {
        bytes: data(alloc)?,
        acl: Acls::everyone(alloc)?,
        meta: META,
    };
    changes.push(Change::Node(Text::from_str(alloc, "/a")?, Some(node)))?;
    changes.push(Change::Node(Text::from_str(alloc, "/b")?, None))?;
    changes.push(Change::Session(7, Some(session(alloc))))?;
    changes.push(Change::Session(9, None))?;
    changes.push(Change::NextSession(8))
}

fn changes(alloc: Global) -> Result<Changes, NoMemory> {
    let mut changes = Changes::new(alloc);
    match add_changes(alloc, &mut changes) {
        Ok(()) => Ok(changes),
        Err(none) => {
            drop(changes);
            Err(none)
        }
    }
}

fn is_plan_copied(alloc: Global) -> Result<bool, NoMemory> {
    let plan = plan(alloc)?;
    let copied = plan.copy(alloc).is_ok();
    drop(plan);
    Ok(copied)
}

fn is_act_copied(alloc: Global) -> Result<bool, NoMemory> {
    let act = Act {
        prepared: prepared(alloc)?,
        effect: making(alloc)?,
    };
    let copied = act.copy(alloc).is_ok();
    drop(act);
    Ok(copied)
}

fn is_decision_copied(alloc: Global) -> Result<bool, NoMemory> {
    let decided = Decided {
        prepared: prepared(alloc)?,
        changes: changes(alloc)?,
    };
    let copied = decided.copy(alloc).is_ok();
    drop(decided);
    Ok(copied)
}

#[test]
fn what_is_found_of_an_entry_is_copied(rt: HostRuntime) -> Result<(), Fail> {
    assert!(rt; is_act_copied(rt.alloc())?);
    assert!(rt; is_plan_copied(rt.alloc())?);
    assert!(rt; is_decision_copied(rt.alloc())?);
    Ok(())
}

fn is_seen_copied(alloc: Global) -> Result<bool, NoMemory> {
    let seen = Seen {
        bytes: data(alloc)?,
        meta: META,
    };
    Ok(seen.copy(alloc).is_ok())
}

fn is_question_copied(alloc: Global) -> Result<bool, NoMemory> {
    let asked = ReadCmd::GetData {
        path: Text::from_str(alloc, "/a")?,
    };
    Ok(asked.copy(alloc).is_ok())
}

fn is_answer_copied(alloc: Global) -> Result<bool, NoMemory> {
    let answer = ReadReply::Data(data(alloc)?, META);
    Ok(answer.copy(alloc).is_ok())
}

fn is_operation_copied(alloc: Global) -> Result<bool, NoMemory> {
    let op = Op::Delete {
        path: Text::from_str(alloc, "/a")?,
        version: 3,
    };
    Ok(op.copy(alloc).is_ok())
}

fn is_result_copied(alloc: Global) -> Result<bool, NoMemory> {
    let reply = OpReply::PathStat(Text::from_str(alloc, "/a")?, META);
    Ok(reply.copy(alloc).is_ok())
}

#[test]
fn looks_and_operations_are_copied(rt: HostRuntime) -> Result<(), Fail> {
    assert!(rt; is_seen_copied(rt.alloc())?);
    assert!(rt; is_question_copied(rt.alloc())?);
    assert!(rt; is_answer_copied(rt.alloc())?);
    assert!(rt; is_operation_copied(rt.alloc())?);
    assert!(rt; is_result_copied(rt.alloc())?);
    Ok(())
}
