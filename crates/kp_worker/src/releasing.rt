// What leaves of a turn that was kept.
ghost use Rattle.std.specs.Prelude.{◌≡◌, ◌<◌, ◌≤◌, ◌+◌, ℕ, []};
ghost use Rattle.kp_shared.specs.Posts.{HasSeats, Posts};
ghost use Rattle.kp_worker.specs.Calls.{Releases, ReleasesOne};
ghost use Rattle.kp_worker.specs.Notes.{all_drained, drained_at, drained_by, ending, ends, ends_at, mail_of, mails, one_where, opened_by, opening, openings, opens, piece_of};
ghost use Rattle.kp_worker.specs.Outside.{AllThere, Stays, Tells};

use crate::lines::Lines;
use crate::note::{Mark, Note};
use crate::noting::{drained, ended, opened, starved};
use kp_event::Said;
use kp_links::{LinkSeat, Links};
use kp_shared::{Peers, post_thought};
use std::sync::Wait;

// Gives a new connection the number that was opened for it.
fn admit_opened<L: Lines>(lines: &mut L, said: &Said)
    requires { one_where (opened_by said.now) ≤ (L.sees lines.old).waits }
    ensures tells { Tells (L.sees lines.old) (L.sees lines.new) [] [] }
    ensures state { (c : ℕ) → (L.sees lines.new).state c ≡ opens c ((L.sees lines.old).state c) (opened_by said.now) }
    ensures waits { (L.sees lines.new).waits + one_where (opened_by said.now) ≡ (L.sees lines.old).waits }
    ensures faults { (L.sees lines.new).faults ≡ (L.sees lines.old).faults }
{
    match opened(said) {
        Some(conn) => lines.admit(conn),
        None => {}
    }
}

// Hands out what was drained.
fn hand_drained<L: Lines>(lines: &mut L, mark: Mark, said: &Said)
    requires { AllThere (L.sees lines.old).state (drained_by mark) }
    ensures tells { Tells (L.sees lines.old) (L.sees lines.new) [] (drained_at mark said.now) }
    ensures stays { Stays (L.sees lines.old) (L.sees lines.new) }
{
    match mark {
        Mark::Drained(conn) => lines.hand(conn, drained(said)),
        _ => {}
    }
}

// Ends a connection, where one is to end.
fn end_where<L: Lines>(lines: &mut L, conn: Option<u64>)
    ensures tells { Tells (L.sees lines.old) (L.sees lines.new) [] [] }
    ensures state { (c : ℕ) → (L.sees lines.new).state c ≡ ends c ((L.sees lines.old).state c) conn }
    ensures waits { (L.sees lines.new).waits ≡ (L.sees lines.old).waits }
    ensures faults { (L.sees lines.new).faults ≡ (L.sees lines.old).faults }
{
    match conn {
        Some(conn) => lines.end(conn),
        None => {}
    }
}

// Lets what was said leave: a connection that it opened gets its number, what it drained is handed out, and one that it ends ends.
fn release_said<L: Lines>(lines: &mut L, mark: Mark, said: Said)
    requires waits { one_where (opened_by said) ≤ (L.sees lines.old).waits }
    requires there { AllThere (L.sees lines.old).state (drained_by mark) }
    ensures { ReleasesOne (L.sees lines.old) (L.sees lines.new) (drained_at mark said) (opened_by said) (ends_at mark said) }
{
    admit_opened(lines, &said);
    hand_drained(lines, mark, &said);
    end_where(lines, ended(mark, &said));
    drop(said);
}

// Sends the mail of a thought, and lets leave what it said.
fn release_one<R: Wait, M: Drop, L: Lines>(
    rt: &R,
    links: &Peers<Links<M>>,
    seats: &mut Peers<LinkSeat<M>>,
    lines: &mut L,
    note: Note<M>,
)
    requires seats { HasSeats links.now seats.old }
    requires waits { one_where (opening note.thought) ≤ (L.sees lines.old).waits }
    requires there { AllThere (L.sees lines.old).state (drained_by note.mark) }
    ensures seats { HasSeats links.now seats.new }
    ensures posts { Posts (mail_of note.thought) seats.old seats.new }
    ensures releases { ReleasesOne (L.sees lines.old) (L.sees lines.new) (piece_of note.mark note.thought) (opening note.thought) (ending note.mark note.thought) }
{
    let Note { mark, thought } = note;
    match thought {
        Some(thought) => {
            let said = post_thought(rt, links, seats, thought);
            release_said(lines, mark, said);
        }
        None => end_where(lines, starved(mark)),
    }
}

/// Sends the mail of these thoughts, and lets leave what they said.
pub(crate) fn release<R: Wait, M: Drop, L: Lines>(
    rt: &R,
    links: &Peers<Links<M>>,
    seats: &mut Peers<LinkSeat<M>>,
    lines: &mut L,
    notes: Vec<Note<M>>,
)
    requires seats { HasSeats links.now seats.old }
    requires waits { openings notes.items ≤ (L.sees lines.old).waits }
    requires there { AllThere (L.sees lines.old).state (all_drained notes.items) }
    ensures seats { HasSeats links.now seats.new }
    ensures posts { Posts (mails notes.items) seats.old seats.new }
    ensures releases { Releases (L.sees lines.old) (L.sees lines.new) notes.items }
{
    for note in notes {
        release_one(rt, links, seats, lines, note);
    }
}
