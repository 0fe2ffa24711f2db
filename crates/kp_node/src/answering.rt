//! What the request at the front of a queue is answered.

ghost use Rattle.std.specs.Prelude.{◌≡◌, [], true, is_some, IfOk, OnOk, OnErr};
ghost use Rattle.kp_ask.specs.Asks.{command};
ghost use Rattle.kp_model.specs.Reads.{read_answer};
ghost use Rattle.kp_step.specs.Answers.{answer_of, state_answer, other_answer, asked_by, watching_by, set_by, path_of as path_in};
ghost use Rattle.kp_watch.specs.Watching.{set_again};
ghost use Rattle.kp_ask.specs.Given.{given as given_in, given_paths as paths_in};
ghost use Rattle.kp_node.specs.Deciding.{Decides};
ghost use Rattle.kp_node.specs.declared.answering.Decision.TheVariants as decisions;

use crate::watched::{kind_of, lets_watch};
use kp_ask::{given_index, given_paths, question, told_to, wants_watch};
use kp_conn::Waiting;
use kp_model::{Events, NoMemory, Paths, ReadCmd, ReadReply, Text, View};
use kp_read::answer;
use kp_watch::Watches;
use kp_wire::{WireAsk, WireReply, WireTexts};
use std::alloc::Global;

/// The connection has lost its leader.
pub const CONNECTION_LOSS: i32 = -4;

/// There is no such request.
const UNIMPLEMENTED: i32 = -6;

/// What was decided of the request at the front of a queue.
#[derive(Drop)]
pub enum Decision {
    /// It is a write whose entry isn't applied.
    Waits,
    /// It is answered the reply that it keeps.
    Kept,
    /// It is answered this, behind these events.
    Tells(Events, WireReply),
}

// Nothing but a reply.
fn tells(alloc: Global, reply: WireReply) -> Decision
    ensures { result ≡ decisions.Tells [] reply }
{
    Decision::Tells(Events::new(alloc), reply)
}

// Whether a request asks for a command, which goes through the log.
#[tactic(auto, unfolding(kp_ask::specs::Asks::command))]
fn is_command(ask: &WireAsk) -> bool
    ensures { result ≡ is_some (command ask.now) }
{
    matches!(
        ask,
        WireAsk::Create { .. }
            | WireAsk::Create2 { .. }
            | WireAsk::Delete { .. }
            | WireAsk::SetData { .. }
            | WireAsk::SetAcl { .. }
            | WireAsk::Sync { .. }
            | WireAsk::Check { .. }
            | WireAsk::Multi { .. }
            | WireAsk::Auth { .. }
            | WireAsk::CloseSession
    )
}

// The text of a field; null counts as empty.
fn text_in(field: &Option<Text>) -> &str
    ensures { result.now ≡ given_in field.now }
{
    match field {
        None => "",
        Some(text) => text.as_str(),
    }
}

// The path that a question asks about.
fn path_of(ask: &WireAsk) -> &str
    ensures { result.now ≡ path_in ask.now }
{
    match ask {
        WireAsk::Exists { path, .. } => text_in(path),
        WireAsk::GetData { path, .. } => text_in(path),
        WireAsk::GetChildren { path, .. } => text_in(path),
        WireAsk::GetChildren2 { path, .. } => text_in(path),
        _ => "",
    }
}

// Sets the watch of a question of the connection that is answered so, if it asks for one.
fn watch_by(
    watches: &mut Watches,
    conn: u64,
    ask: &WireAsk,
    reply: &ReadReply,
) -> Result<(), NoMemory>
    ensures ok { OnOk result (watches.new ≡ watching_by conn ask.now reply.now watches.old) }
    ensures err { OnErr result (watches.new ≡ watches.old) }
{
    if wants_watch(ask) && lets_watch(ask, reply) {
        return watches.add(path_of(ask), kind_of(ask), conn);
    }
    Ok(())
}

// Answers a question of the connection, and sets its watch.
fn answer_question<V: View>(
    alloc: Global,
    view: &V,
    watches: &mut Watches,
    conn: u64,
    session: u64,
    ask: &WireAsk,
    question: &ReadCmd,
) -> Result<Decision, NoMemory>
    ensures ok { IfOk result (λ d. let a = asked_by conn ask.now watches.old (read_answer (V.state view.now) session question.now) in (d ≡ decisions.Tells [] a.reply) × (watches.new ≡ a.watches)) }
    ensures err { OnErr result (watches.new ≡ watches.old) }
{
    let reply = answer(alloc, view, session, question)?;
    match watch_by(watches, conn, ask, &reply) {
        Err(none) => {
            drop(reply);
            Err(none)
        }
        Ok(()) => Ok(tells(alloc, told_to(ask, reply))),
    }
}

// Sets watches of the connection anew.
fn set_anew<V: View>(
    view: &V,
    watches: &mut Watches,
    conn: u64,
    since: u64,
    contents: &Paths,
    exist: &Paths,
    child: &Paths,
) -> Result<Decision, NoMemory>
    ensures ok { IfOk result (λ d. let a = set_by (set_again watches.old (V.state view.now).nodes conn since contents.now exist.now child.now) in (d ≡ decisions.Tells a.events a.reply) × (watches.new ≡ a.watches)) }
    ensures err { OnErr result (watches.new ≡ watches.old) }
{
    let events = watches.set_watches(
        conn,
        since,
        contents.as_slice(),
        exist.as_slice(),
        child.as_slice(),
        view,
    )?;
    Ok(Decision::Tells(events, WireReply::Empty))
}

// Sets watches of the connection anew, where these are the lists of the request.
fn set_watches<V: View>(
    alloc: Global,
    view: &V,
    watches: &mut Watches,
    conn: u64,
    since: u64,
    contents: &Option<WireTexts>,
    exist: &Option<WireTexts>,
    child: &Option<WireTexts>,
) -> Result<Decision, NoMemory>
    ensures ok { IfOk result (λ d. let a = set_by (set_again watches.old (V.state view.now).nodes conn since (paths_in contents.now) (paths_in exist.now) (paths_in child.now)) in (d ≡ decisions.Tells a.events a.reply) × (watches.new ≡ a.watches)) }
    ensures err { OnErr result (watches.new ≡ watches.old) }
{
    let contents = given_paths(alloc, contents)?;
    let exist = given_paths(alloc, exist)?;
    let child = given_paths(alloc, child)?;
    let decision = set_anew(view, watches, conn, since, &contents, &exist, &child);
    drop(contents);
    drop(exist);
    drop(child);
    decision
}

// Answers what is neither a question nor a write.
fn answer_other<V: View>(
    alloc: Global,
    view: &V,
    watches: &mut Watches,
    conn: u64,
    ask: &WireAsk,
) -> Result<Decision, NoMemory>
    ensures ok { IfOk result (λ d. let a = other_answer (V.state view.now) conn watches.old ask.now in (d ≡ decisions.Tells a.events a.reply) × (watches.new ≡ a.watches)) }
    ensures err { OnErr result (watches.new ≡ watches.old) }
{
    match ask {
        WireAsk::Ping => Ok(tells(alloc, WireReply::Empty)),
        WireAsk::SetWatches {
            zxid,
            contents,
            exist,
            child,
        } => set_watches(
            alloc,
            view,
            watches,
            conn,
            given_index(*zxid),
            contents,
            exist,
            child,
        ),
        _ => Ok(tells(alloc, WireReply::Err(UNIMPLEMENTED))),
    }
}

// Answers what asks for no write.
#[tactic(auto, unfolding(kp_step::specs::Answers::state_answer))]
fn answer_ask<V: View>(
    alloc: Global,
    view: &V,
    watches: &mut Watches,
    conn: u64,
    session: u64,
    ask: &WireAsk,
) -> Result<Decision, NoMemory>
    ensures ok { IfOk result (λ d. let a = state_answer (V.state view.now) session conn watches.old ask.now in (d ≡ decisions.Tells a.events a.reply) × (watches.new ≡ a.watches)) }
    ensures err { OnErr result (watches.new ≡ watches.old) }
{
    match question(alloc, ask)? {
        None => answer_other(alloc, view, watches, conn, ask),
        Some(question) => {
            let decision = answer_question(alloc, view, watches, conn, session, ask, &question);
            drop(question);
            decision
        }
    }
}

/// Decides what the request at the front of the connection's queue is answered on the state of the view, where the
/// connection serves this session; and sets the watches that its answer brings. Without memory nothing has changed; it
/// takes none where the request waits.
pub fn decide<V: View>(
    alloc: Global,
    view: &V,
    watches: &mut Watches,
    conn: u64,
    session: u64,
    waiting: &Waiting,
) -> Result<Decision, NoMemory>
    ensures ok { IfOk result (λ d. Decides (answer_of (V.state view.now) session conn watches.old waiting.now) waiting.now watches.old watches.new d) }
    ensures some { OnErr result (is_some (answer_of (V.state view.now) session conn watches.old waiting.now) ≡ true) }
    ensures err { OnErr result (watches.new ≡ watches.old) }
{
    let kept = waiting.reply.is_some();
    if kept {
        return Ok(Decision::Kept);
    }
    let marked = waiting.mark.is_some();
    if marked {
        return Ok(Decision::Waits);
    }
    let writes = is_command(&waiting.request.ask);
    if writes {
        return Ok(tells(alloc, WireReply::Err(CONNECTION_LOSS)));
    }
    answer_ask(alloc, view, watches, conn, session, &waiting.request.ask)
}
