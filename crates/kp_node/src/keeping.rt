//! What a node keeps over a stop, as records.

ghost use Rattle.std.specs.Prelude.{◌≡◌, ◌++◌, ◌∷◌, [], false, Some, IfOk, OnOk};
ghost use Rattle.std.specs.Option.{option_map};
ghost use Rattle.kp_entry.specs.declared.record.Record.TheVariants as record_;
ghost use Rattle.kp_entry.specs.Heads.{appended};
ghost use Rattle.kp_entry.specs.Log.{entry_at};
ghost use Rattle.kp_entry.specs.Records.{has_base};
ghost use Rattle.kp_node.specs.Keeping.{held_records};
ghost use Rattle.kp_node.specs.Parts.{node_of};

use crate::installs::entry_of;
use crate::node::Node;
use kp_entry::{Record, Records};
use kp_model::NoMemory;
use kp_raft::Raft;
use kp_snapshot::Image;
use std::alloc::Global;

impl Node {
    /// Its number in its cluster, from 1 on.
    pub fn number(&self) -> u8
        ensures { result ≡ (node_of self.now).me }
    {
        self.raft.node()
    }

    /// How many members its cluster has.
    pub fn members(&self) -> u8
        ensures { result ≡ (node_of self.now).members }
    {
        self.raft.members()
    }

    /// The records that stand for what it keeps over a stop, behind the image of its base: its term and vote, its start, and
    /// the entries of its log.
    pub fn held_records(&self) -> Result<Records, NoMemory>
        ensures { IfOk result (λ rs. rs ≡ held_records self.now.boot (node_of self.now).held) }
    {
        let mut records = Records::new(self.alloc);
        match put_held(self.alloc, &self.raft, self.boot, &mut records) {
            Ok(()) => Ok(records),
            Err(none) => {
                drop(records);
                Err(none)
            }
        }
    }
}

// Puts the records of a member of this start into an empty list. Without memory some of them are there.
fn put_held(
    alloc: Global,
    raft: &Raft<Image>,
    boot: u64,
    records: &mut Records,
) -> Result<(), NoMemory>
    requires { records.old ≡ [] }
    ensures { OnOk result (records.new ≡ held_records boot raft.now.held) }
{
    let term = raft.term();
    let vote = raft.vote();
    records.push(&Record::Vote { term, vote })?;
    records.push(&Record::Boot { boot })?;
    put_log(alloc, raft, records)
}

// Adds the records of the entries of the log. Without memory some of them are added.
fn put_log(alloc: Global, raft: &Raft<Image>, records: &mut Records) -> Result<(), NoMemory>
    requires { has_base records.old ≡ false }
    ensures { OnOk result (records.new ≡ records.old ++ appended raft.now.held.log.entries) }
{
    let (base, _) = raft.base();
    for place in base..raft.last() {
        put_entry(alloc, raft, place + 1, records)?;
    }
    Ok(())
}

// Adds the record of the entry of this index.
fn put_entry(
    alloc: Global,
    raft: &Raft<Image>,
    index: u64,
    records: &mut Records,
) -> Result<(), NoMemory>
    requires { has_base records.old ≡ false }
    ensures { OnOk result (Some records.new ≡ option_map (λ e. records.old ++ record_.Append e ∷ []) (entry_at raft.now.held.log index)) }
{
    let entry = entry_of(alloc, raft, index)?;
    let pushed = records.push_entry(&entry);
    drop(entry);
    pushed
}
