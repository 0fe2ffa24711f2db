//! What requests ask and how answers are sent: each public call once, with ample memory.

use kp_ask::{answer_to, command, given_index, given_paths, question, told_to, wants_watch};
use kp_model::{Cmd, Items, NoMemory, OpReply, ReadCmd, ReadReply, Reply};
use kp_wire::{OpResult, WireAsk, WireOp, WireReply};
use std::alloc::Global;
use std::test::Fail;

// A multi of one creation, of which every field is null.
fn nulls(alloc: Global) -> Result<WireAsk, NoMemory> {
    let mut ops = Items::new(alloc);
    ops.push(WireOp::Create2 {
        path: None,
        bytes: None,
        acl: None,
        flags: 0,
    })?;
    Ok(WireAsk::Multi { ops })
}

// Whether this is the command of one operation that makes a node, asks for its numbers, and gives nothing else.
fn is_bare(cmd: &Cmd) -> bool {
    match cmd {
        Cmd::Multi { ops } => match ops.as_slice() {
            [
                kp_model::Op::Create {
                    path,
                    bytes,
                    acl,
                    flags,
                    stat,
                },
            ] => path.len() == 0 && bytes.len() == 0 && acl.len() == 0 && *flags == 0 && *stat,
            _ => false,
        },
        _ => false,
    }
}

#[test]
fn null_counts_as_empty(rt: HostRuntime) -> Result<(), Fail> {
    let ask = nulls(rt.alloc())?;
    let cmd = command(rt.alloc(), &ask);
    drop(ask);
    let bare = matches!(&cmd, Ok(Some(cmd)) if is_bare(cmd));
    drop(cmd);
    let paths = given_paths(rt.alloc(), &None);
    let none = matches!(&paths, Ok(paths) if paths.len() == 0);
    drop(paths);
    assert!(rt; bare && none && given_index(-1) == 0 && given_index(7) == 7);
    Ok(())
}

#[test]
fn a_look_is_a_question(rt: HostRuntime) {
    let ask = WireAsk::GetChildren2 {
        path: None,
        watch: true,
    };
    let asked = question(rt.alloc(), &ask);
    let look = matches!(&asked, Ok(Some(ReadCmd::GetChildren { path })) if path.len() == 0);
    drop(asked);
    let told = told_to(&ask, ReadReply::Err(-101));
    let refused = matches!(&told, WireReply::Err(-101));
    drop(told);
    let watch = wants_watch(&ask);
    drop(ask);
    assert!(rt; look && refused && watch);
}

fn multi_reply(alloc: Global) -> Result<Reply, NoMemory> {
    let mut replies = Items::new(alloc);
    replies.push(OpReply::Done)?;
    Ok(Reply::Multi(replies))
}

#[test]
fn a_result_stands_behind_its_type(rt: HostRuntime) -> Result<(), Fail> {
    let reply = multi_reply(rt.alloc())?;
    let ask = nulls(rt.alloc());
    let sent = match &ask {
        Ok(ask) => answer_to(rt.alloc(), ask, &reply),
        Err(none) => Err(*none),
    };
    drop(ask);
    drop(reply);
    let told =
        matches!(&sent, Ok(WireReply::Multi(results)) if matches!(results.as_slice(), [(15, OpResult::Empty)]));
    drop(sent);
    assert!(rt; told);
    Ok(())
}
