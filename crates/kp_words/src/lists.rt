//! Lists, printed item by item. Where memory runs out a beginning may be left.
ghost use Rattle.std.specs.Prelude.{◌≡◌, ◌++◌, OnOk};
ghost use Rattle.std.specs.List.{flat_map};
ghost use Rattle.kp_words.specs.Texts.{hex_line, line, path_line, conn_line, session_line, session_paths, watched_path};

use crate::facts::{ConnFacts, SessionPaths, WatchedPath};
use crate::lines::{print, print_conn, print_hex_line, print_line, print_path};
use kp_model::{NoMemory, Text};

pub(crate) fn print_conns(conns: &[ConnFacts], out: &mut Vec<u8>) -> Result<(), NoMemory>
    ensures { OnOk result (out.new.items ≡ out.old.items ++ flat_map conn_line conns.now) }
{
    for conn in conns {
        print_conn(conn, out)?;
    }
    Ok(())
}

#[tactic(auto, unfolding(crate::specs::Texts::session_line))]
fn print_session(before: &str, session: u64, out: &mut Vec<u8>) -> Result<(), NoMemory>
    ensures { OnOk result (out.new.items ≡ out.old.items ++ session_line before.now session) }
{
    print(before, out)?;
    print_hex_line(session, out)
}

// The lines of sessions, each behind the same text.
pub(crate) fn print_sessions(
    before: &str,
    sessions: &[u64],
    out: &mut Vec<u8>,
) -> Result<(), NoMemory>
    ensures { OnOk result (out.new.items ≡ out.old.items ++ flat_map (session_line before.now) sessions.now) }
{
    for session in sessions {
        print_session(before, *session, out)?;
    }
    Ok(())
}

fn print_paths(paths: &[Text], out: &mut Vec<u8>) -> Result<(), NoMemory>
    ensures { OnOk result (out.new.items ≡ out.old.items ++ flat_map path_line paths.now) }
{
    for path in paths {
        print_path(path, out)?;
    }
    Ok(())
}

#[tactic(auto, unfolding(crate::specs::Texts::session_paths))]
fn print_session_paths(of: &SessionPaths, out: &mut Vec<u8>) -> Result<(), NoMemory>
    ensures { OnOk result (out.new.items ≡ out.old.items ++ session_paths of.now) }
{
    print_hex_line(of.session, out)?;
    print_paths(of.paths.as_slice(), out)
}

pub(crate) fn print_owners(owners: &[SessionPaths], out: &mut Vec<u8>) -> Result<(), NoMemory>
    ensures { OnOk result (out.new.items ≡ out.old.items ++ flat_map session_paths owners.now) }
{
    for owner in owners {
        print_session_paths(owner, out)?;
    }
    Ok(())
}

#[tactic(auto, unfolding(crate::specs::Texts::watched_path))]
fn print_watched_path(watched: &WatchedPath, out: &mut Vec<u8>) -> Result<(), NoMemory>
    ensures { OnOk result (out.new.items ≡ out.old.items ++ watched_path watched.now) }
{
    print_line(watched.path.as_str(), out)?;
    print_sessions("\t", watched.sessions.as_slice(), out)
}

pub(crate) fn print_watched(watched: &[WatchedPath], out: &mut Vec<u8>) -> Result<(), NoMemory>
    ensures { OnOk result (out.new.items ≡ out.old.items ++ flat_map watched_path watched.now) }
{
    for path in watched {
        print_watched_path(path, out)?;
    }
    Ok(())
}
