ghost use Rattle.std.specs.Prelude.{◌≡◌, ◌==◌, not, ℕ, ◌<◌, ◌≤◌, ◌^◌, ◌-◌, [], IsTrue, length, take, slice_get, Some, IfOk, OnOk, OnErr};
ghost use Rattle.std.specs.Option.{option_copied};
ghost use Rattle.std.specs.FinMap as map;
ghost use Rattle.kp_model.specs.Good.{IsSound};
ghost use Rattle.kp_model.specs.State.{meta_at, bytes_at};
ghost use Rattle.kp_model.specs.LogEntry.{LogEntry};
ghost use Rattle.kp_model.specs.Reads.{read_answer};
ghost use Rattle.kp_model.specs.Touched.{touched};
ghost use Rattle.kp_model.specs.Store.{after, latest as latest_of, last as last_of, empty, with_entry, kept as kept_of, truncated, commit_answer, commit_leaves};
ghost use Rattle.kp_cells.specs.Mapped.{kept as those};
ghost use Rattle.kp_cells.specs.Parts.{parts_of, FitTogether};
ghost use Rattle.kp_cells.specs.Overlays.{IsClosed, IsSettled, depth, committed_parts, latest_parts, committed_state, latest_state};
ghost use Rattle.kp_prep.specs.Touching.{AreWithin, layer_keys};
ghost use Rattle.kp_storage.specs.Kept.{IsLayered};

use kp_cells::{Cells, CommittedView, LatestView};
use kp_model::{Committed, Entry, Meta, NoMemory, ReadCmd, ReadReply, Reply, Session};
use kp_prep::{Prepared, prepare};
use kp_read::answer;
use std::alloc::Global;
use std::collections::VecDeque;
use std::marker::Model;

/// The committed state, and the entries that aren't applied yet. Each of these has left its changes in
/// a layer over the committed state, so that the uncommitted state, which is the replay of the entries
/// on the committed one, is looked up and not replayed.
///
/// No call but `new`, `preprocess`, `adopt`, `image` and `read` takes memory. Where `preprocess` or `adopt` finds none, it
/// answers `NoMemory`, and the storage is as it was.
#[derive(Drop)]
pub struct Storage {
    pub(crate) alloc: Global,
    cells: Cells,
    // the entries that aren't applied, each with its layer in `cells`
    entries: VecDeque<Entry>,
    // what each of them is answered
    answers: VecDeque<Committed>,
}

impl Model for Storage {
    ghost use Rattle.kp_model.specs.Store.{Store};
    ghost use Rattle.kp_model.specs.Codes.{store_code};
    ghost use Rattle.kp_storage.specs.Kept.{store, Keeps};

    ghost Value = { Store };

    ghost coded = { store_code };

    ghost view = { λ x. store x.cells x.entries.items };

    ghost invariant = { λ x. Keeps x.cells x.entries.items x.answers.items };
}

impl Storage {
    /// The empty storage, which takes its memory from this allocator.
    pub fn new(alloc: Global) -> Result<Storage, NoMemory>
        ensures { IfOk result (λ x. x ≡ empty) }
    {
        Ok(Storage::of_cells(alloc, Cells::new(alloc)?))
    }

    // A storage over these cells, with no entry that isn't applied.
    pub(crate) fn of_cells(alloc: Global, cells: Cells) -> Storage
        requires settled { IsSettled cells }
        requires sound { IsSound (committed_state cells) }
        ensures { result ≡ record { state = committed_state cells; unapplied = [] } }
    {
        Storage {
            alloc,
            cells,
            entries: VecDeque::new(alloc),
            answers: VecDeque::new(alloc),
        }
    }

    /// The index of the last entry that is committed.
    pub fn applied(&self) -> u64
        ensures { result ≡ self.now.state.applied }
    {
        self.cells.applied()
    }

    /// The index of the last entry.
    pub fn last(&self) -> u64
        ensures index { result ≡ last_of self.now }
        ensures limit { result ≤ 2 ^ 62 }
    {
        self.cells.applied() + self.entries.len() as u64
    }

    /// The committed state and the uncommitted one are sound. Does nothing: to lend a field opens what
    /// the type says of the storage.
    pub fn stays_sound(&self)
        ensures committed { IsSound self.now.state }
        ensures latest { IsSound (latest_of self.now) }
    {
        let _cells = &self.cells;
    }

    /// Adds an entry behind the last one, as a copy, and works out its changes and its answer.
    pub fn preprocess(&mut self, entry: &Entry) -> Result<(), NoMemory>
        requires room { last_of self.old < 2 ^ 62 }
        ensures ok { OnOk result (self.new ≡ with_entry self.old entry.now) }
        ensures err { OnErr result (self.new ≡ self.old) }
    {
        let entry = entry.copy(self.alloc)?;
        let index = self.last() + 1;
        self.entries.reserve(1)?;
        self.answers.reserve(1)?;
        self.cells.begin()?;
        match prepare(self.alloc, &mut self.cells, index, &entry) {
            Err(error) => {
                self.cells.abandon();
                Err(error)
            }
            Ok(Prepared { reply, events }) => {
                self.cells.seal();
                self.entries.push_back_reserved(entry);
                self.answers.push_back_reserved(Committed {
                    index,
                    reply,
                    events,
                });
                Ok(())
            }
        }
    }

    /// Makes the changes of the first unapplied entry part of the committed state, and answers its
    /// index, its reply and its events. None exactly where there is no such entry. Takes no memory.
    pub fn commit(&mut self) -> Option<Committed>
        ensures answer { result ≡ commit_answer self.old.state self.old.unapplied }
        ensures state { self.new ≡ commit_leaves self.old.state self.old.unapplied }
    {
        if self.entries.is_empty() {
            return None;
        }
        let _ = self.cells.commit_front();
        let _ = self.entries.pop_front();
        self.answers.pop_front()
    }

    /// Lends what `commit` would answer.
    pub fn upcoming(&self) -> Option<&Committed>
        ensures { option_copied result ≡ commit_answer self.now.state self.now.unapplied }
    {
        self.answers.front()
    }

    /// Lends the entry that `commit` would take.
    pub fn next_entry(&self) -> Option<&Entry>
        ensures { option_copied result ≡ slice_get self.now.unapplied 0 }
    {
        self.entries.front()
    }

    // Forgets the last entry, where there is one.
    fn forget_last(&mut self)
        ensures { self.new ≡ record self.old { unapplied = take (length self.old.unapplied - 1) self.old.unapplied } }
    {
        let _ = self.cells.drop_back();
        let _ = self.entries.pop_back();
        let _ = self.answers.pop_back();
    }

    /// Forgets the entries behind this index, which is between `applied` and `last`, and their changes.
    /// Takes no memory.
    pub fn truncate(&mut self, last: u64)
        requires from { self.old.state.applied ≤ last }
        requires to { last ≤ last_of self.old }
        ensures { self.new ≡ truncated self.old last }
    {
        let surplus = self.last() - last;
        for _ in 0..surplus {
            self.forget_last();
        }
    }

    /// What the unapplied entry of this index was answered when it was added; None exactly where there
    /// is no such entry.
    pub fn kept(&self, index: u64) -> Option<&Reply>
        ensures { option_copied result ≡ kept_of self.now index }
    {
        let applied = self.applied();
        if index <= applied {
            return None;
        }
        let place = index - applied - 1;
        if place >= self.answers.len() as u64 {
            return None;
        }
        Some(&self.answers[place as usize].reply)
    }

    /// The numbers of a node of the uncommitted state; None exactly where there is none.
    pub fn latest_meta(&self, path: &str) -> Option<&Meta>
        ensures { option_copied result ≡ meta_at (latest_of self.now).nodes path.now }
    {
        self.cells.latest_meta(path)
    }

    /// The data of a node of the uncommitted state; None exactly where there is none.
    pub fn latest_data(&self, path: &str) -> Option<&[u8]>
        ensures { option_copied result ≡ bytes_at (latest_of self.now).nodes path.now }
    {
        self.cells.latest_content(path)
    }

    /// A session of the uncommitted state; None exactly where there is none of this number.
    pub fn latest_session(&self, id: u64) -> Option<&Session>
        ensures { option_copied result ≡ map.get (latest_of self.now).sessions id }
    {
        self.cells.latest_session(id)
    }

    /// The numbers of a node of the committed state; None exactly where there is none.
    pub fn committed_meta(&self, path: &str) -> Option<&Meta>
        ensures { option_copied result ≡ meta_at self.now.state.nodes path.now }
    {
        self.cells.committed_meta(path)
    }

    /// The data of a node of the committed state; None exactly where there is none.
    pub fn committed_data(&self, path: &str) -> Option<&[u8]>
        ensures { option_copied result ≡ bytes_at self.now.state.nodes path.now }
    {
        self.cells.committed_content(path)
    }

    /// A session of the committed state; None exactly where there is none of this number.
    pub fn committed_session(&self, id: u64) -> Option<&Session>
        ensures { option_copied result ≡ map.get self.now.state.sessions id }
    {
        self.cells.committed_session(id)
    }

    /// What a session is answered that looks at a node of the committed state: -8 for a malformed path, -101 where there
    /// is no such node, -102 where the session lacks the right (READ for data and children, READ or ADMIN for an access
    /// list), or what is asked for.
    pub fn read(&self, session: u64, cmd: &ReadCmd) -> Result<ReadReply, NoMemory>
        ensures { IfOk result (λ r. r ≡ read_answer self.now.state session cmd.now) }
    {
        answer(self.alloc, &self.committed(), session, cmd)
    }

    /// How many nodes the committed state has. Costs the same however many there are, as the two
    /// counts below do.
    pub fn node_count(&self) -> u64
        ensures { result ≡ map.len self.now.state.nodes }
    {
        self.cells.node_count()
    }

    /// How many nodes of the committed state have an owner.
    pub fn owned_count(&self) -> u64
        ensures { result ≡ map.len (those (λ _ n. not (n.owner == 0)) self.now.state.nodes) }
    {
        self.cells.owned_count()
    }

    /// How many sessions the committed state has.
    pub fn session_count(&self) -> u64
        ensures { result ≡ map.len self.now.state.sessions }
    {
        self.cells.session_count()
    }

    /// The uncommitted state: the replay of the unapplied entries on the committed one.
    pub fn latest(&self) -> LatestView<'_>
        ensures { result ≡ latest_of self.now }
    {
        self.cells.latest()
    }

    /// The committed state.
    pub fn committed(&self) -> CommittedView<'_>
        ensures { result ≡ self.now.state }
    {
        self.cells.committed()
    }

    /// Lends the tree and the sessions with their layers: one for each unapplied entry, and none open. The
    /// layer of an entry writes at the paths and the sessions that the entry touches, and at no others.
    pub fn cells(&self) -> &Cells
        ensures closed { IsClosed result.now }
        ensures depth { depth result.now ≡ length self.now.unapplied }
        ensures layered { IsLayered (length self.now.unapplied) result.now }
        ensures committed { committed_state result.now ≡ self.now.state }
        ensures latest { latest_state result.now ≡ latest_of self.now }
        ensures committed_parts { committed_parts result.now ≡ parts_of self.now.state }
        ensures latest_parts { latest_parts result.now ≡ parts_of (latest_of self.now) }
        ensures committed_fits { FitTogether (committed_parts result.now) }
        ensures latest_fits { FitTogether (latest_parts result.now) }
        ensures touches { (k : ℕ) (e : LogEntry) → slice_get self.now.unapplied k ≡ Some e → AreWithin (touched (after self.now.state (take k self.now.unapplied)) e) (layer_keys k result.now) }
    {
        &self.cells
    }
}
