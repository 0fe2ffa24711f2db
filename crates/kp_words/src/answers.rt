ghost use Rattle.std.specs.Prelude.{◌≡◌, ◌<◌, ◌^◌, ◌++◌, IfOk, OnOk};
ghost use Rattle.std.specs.List.{flat_map};
ghost use Rattle.kp_words.specs.Texts.{line, mode_text, conn_line, count_lines, server_text, stat_text, monitored, monitor_text, watch_sums, dump_text, log_text};
ghost use Rattle.kp_words.specs.Answers.{known_word, text_of, answer_of};

use crate::facts::{Counts, Facts, LogFacts};
use crate::lines::{
    mode_name, print, print_heading, print_hex_line, print_line, print_named, print_number,
    print_tabbed,
};
use crate::lists::{print_conns, print_owners, print_sessions, print_watched};
use crate::word::Word;
use kp_model::{Bytes, NoMemory};
use std::alloc::Global;

fn print_counts(counts: &Counts, out: &mut Vec<u8>) -> Result<(), NoMemory>
    ensures { OnOk result (out.new.items ≡ out.old.items ++ count_lines counts.now) }
{
    print_named("Node count: ", counts.nodes, out)?;
    print_named("Connections: ", counts.connections, out)?;
    print_named("Sessions: ", counts.sessions, out)?;
    print_named("Watches: ", counts.watches, out)
}

// A name, and behind it what the node is in the cluster.
fn print_mode(name: &str, facts: &Facts, out: &mut Vec<u8>) -> Result<(), NoMemory>
    ensures { OnOk result (out.new.items ≡ out.old.items ++ (name.now ++ line (mode_text facts.now.members facts.now.role))) }
{
    print(name, out)?;
    print_line(mode_name(facts.members, facts.role), out)
}

fn print_server(facts: &Facts, out: &mut Vec<u8>) -> Result<(), NoMemory>
    ensures { OnOk result (out.new.items ≡ out.old.items ++ server_text facts.now) }
{
    print_line("Keeper version: 1", out)?;
    print_mode("Mode: ", facts, out)?;
    print("Zxid: ", out)?;
    print_hex_line(facts.log.applied, out)?;
    print_counts(&facts.counts, out)
}

#[tactic(auto, unfolding(crate::specs::Texts::stat_text, crate::specs::Texts::line))]
fn print_stat(facts: &Facts, out: &mut Vec<u8>) -> Result<(), NoMemory>
    ensures { OnOk result (out.new.items ≡ out.old.items ++ stat_text facts.now) }
{
    print_line("Clients:", out)?;
    print_conns(facts.conns.as_slice(), out)?;
    print("\n", out)?;
    print_server(facts, out)
}

fn print_monitored(counts: &Counts, out: &mut Vec<u8>) -> Result<(), NoMemory>
    ensures { OnOk result (out.new.items ≡ out.old.items ++ monitored counts.now) }
{
    print_tabbed("zk_znode_count", counts.nodes, out)?;
    print_tabbed("zk_ephemerals_count", counts.ephemerals, out)?;
    print_tabbed("zk_watch_count", counts.watches, out)?;
    print_tabbed("zk_num_alive_connections", counts.connections, out)?;
    print_tabbed("zk_approximate_data_size", counts.size, out)
}

#[tactic(auto, unfolding(crate::specs::Texts::monitor_text))]
fn print_monitor(facts: &Facts, out: &mut Vec<u8>) -> Result<(), NoMemory>
    ensures { OnOk result (out.new.items ≡ out.old.items ++ monitor_text facts.now) }
{
    print_mode("zk_server_state\t", facts, out)?;
    print_monitored(&facts.counts, out)
}

#[tactic(auto, unfolding(crate::specs::Texts::watch_sums, crate::specs::Texts::line))]
fn print_watch_sums(counts: &Counts, out: &mut Vec<u8>) -> Result<(), NoMemory>
    ensures { OnOk result (out.new.items ≡ out.old.items ++ watch_sums counts.now) }
{
    print_number(counts.watching, out)?;
    print(" connections watching ", out)?;
    print_number(counts.watched, out)?;
    print_line(" paths", out)?;
    print_named("Total watches:", counts.watches, out)
}

#[tactic(auto, unfolding(crate::specs::Texts::dump_text))]
fn print_dump(facts: &Facts, out: &mut Vec<u8>) -> Result<(), NoMemory>
    ensures { OnOk result (out.new.items ≡ out.old.items ++ dump_text facts.now) }
{
    print_heading("Sessions", facts.sessions.len() as u64, out)?;
    print_sessions("", facts.sessions.as_slice(), out)?;
    print_heading("Ephemerals", facts.owners.len() as u64, out)?;
    print_owners(facts.owners.as_slice(), out)
}

fn print_log(log: &LogFacts, out: &mut Vec<u8>) -> Result<(), NoMemory>
    requires { log.now.base < 2 ^ 63 }
    ensures { OnOk result (out.new.items ≡ out.old.items ++ log_text log.now) }
{
    print_tabbed("first_log_idx", log.base + 1, out)?;
    print_tabbed("last_log_idx", log.last, out)?;
    print_tabbed("last_log_term", log.last_term, out)?;
    print_tabbed("last_committed_log_idx", log.commit, out)
}

fn print_word(word: Word, facts: &Facts, out: &mut Vec<u8>) -> Result<(), NoMemory>
    requires { facts.now.log.base < 2 ^ 63 }
    ensures { OnOk result (out.new.items ≡ out.old.items ++ text_of word facts.now) }
{
    match word {
        Word::Runs => print("imok", out),
        Word::Writes => print("rw", out),
        Word::Server => print_server(facts, out),
        Word::Connections => print_conns(facts.conns.as_slice(), out),
        Word::Stat => print_stat(facts, out),
        Word::Monitor => print_monitor(facts, out),
        Word::WatchSums => print_watch_sums(&facts.counts, out),
        Word::WatchesByConnection => print_owners(facts.watchers.as_slice(), out),
        Word::WatchesByPath => print_watched(facts.watched.as_slice(), out),
        Word::Dump => print_dump(facts, out),
        Word::Log => print_log(&facts.log, out),
        Word::Snapshot => print_number(facts.log.base.max(facts.log.applied), out),
    }
}

/// What a node answers to a word: None where the bytes are none. The number that `csnp` answers is that of the image
/// which the node makes in the same step: the index of the last applied entry, or its base where that is greater.
///
/// Without memory nothing is answered.
pub fn answer(alloc: Global, word: [u8; 4], facts: &Facts) -> Result<Option<Bytes>, NoMemory>
    requires { facts.now.log.base < 2 ^ 63 }
    ensures { IfOk result (λ text. text ≡ answer_of (known_word word) facts.now) }
{
    match Word::of(word) {
        None => Ok(None),
        Some(word) => {
            let mut text = Vec::new(alloc);
            print_word(word, facts, &mut text)?;
            Ok(Some(Bytes::from_vec(text)))
        }
    }
}
