//! What a leader sends.

ghost use Rattle.std.specs.Prelude.{◌≡◌, ◌+◌, ◌-◌, ◌^◌, ◌<◌, ◌≤◌, ◌++◌, true, [], ◌∷◌, length, drop, cond, slice_get, nat_eq, ◌≢◌, None, IfOk, OnOk, OnErr};
ghost use Rattle.std.specs.Vec.Iter.{into_iter_items, into_iter_len};
ghost use Rattle.kp_entry.specs.Log.{last_index, term_of};
ghost use Rattle.kp_model.specs.Majority.{count};
ghost use Rattle.kp_raft.specs.Numbers.{for_peers};
ghost use Rattle.kp_raft.specs.Parts.{is_leader, to};
ghost use Rattle.kp_raft.specs.Appends.{lags, lagging, append_for, install_with, beat_for, on_beat};
ghost use Rattle.kp_raft.specs.Members.{running_of, MayBeat, Steps};

use crate::append::AppendMail;
use crate::event::RaftOut;
use crate::mail::{Mail, Mails};
use crate::raft::Raft;
use crate::rules::{is_leader, term_of};
use crate::vars::Vars;
use kp_model::{Items, NoMemory};
use std::vec::IntoIter;

impl<I: Drop> Raft<I> {
    /// To how many peers a beat sends an image: to those that need entries which this leader has no more. 0 where it
    /// doesn't lead.
    pub fn lagging(&self) -> u32
        ensures { result ≡ lagging self.now.members self.now.node self.now.held (running_of self.now) }
    {
        if !is_leader(self.role()) {
            return 0;
        }
        self.lagging_peers()
    }

    // The number of peers that lag.
    fn lagging_peers(&self) -> u32
        ensures { result ≡ count self.now.members (lags self.now.node self.now.held (running_of self.now)) }
    {
        let (_, members) = self.numbers();
        let mut sum: u32 = 0;
        for k in 0..members {
            if self.lags(k + 1) {
                sum += 1;
            }
        }
        sum
    }

    // Whether the peer needs entries that are here no more.
    fn lags(&self, peer: u8) -> bool
        requires { peer ≤ 7 }
        ensures { result ≡ lags self.now.node self.now.held (running_of self.now) peer }
    {
        let (node, _) = self.numbers();
        let (base, _) = self.base();
        let vars = self.variables();
        peer != node && vars.nexts[peer as usize] <= base
    }

    // It is time to send.
    pub(crate) fn on_beat(&mut self, index: u64, images: Items<I>) -> Result<RaftOut<I>, NoMemory>
        requires { MayBeat self.old index images }
        ensures ok { IfOk result (λ out. Steps self.old (on_beat self.old.members self.old.node self.old.held (running_of self.old) index images) out self.new) }
        ensures image { IfOk result (λ out. out.image ≡ None) }
        ensures err { OnErr result (self.new ≡ self.old) }
    {
        let vars = self.variables();
        if !is_leader(vars.role) {
            drop(images);
            return self.same(vars, None);
        }
        let mails = self.beat_mail(index, images)?;
        self.send(vars, mails)
    }

    // A message for each peer.
    fn beat_mail(&self, index: u64, images: Items<I>) -> Result<Mails<I>, NoMemory>
        ensures { IfOk result (λ mails. mails ≡ for_peers self.now.members self.now.node (beat_for self.now.node self.now.held (running_of self.now) index images)) }
    {
        let (_, members) = self.numbers();
        let mut images = images.into_vec().into_iter();
        let mut mails = Items::new(self.allocator());
        for k in 0..members {
            self.beat_to(k + 1, index, &mut images, &mut mails)?;
        }
        drop(images);
        Ok(mails)
    }

    // What this member sends to that one, which is nothing to itself.
    fn beat_to(
        &self,
        peer: u8,
        index: u64,
        images: &mut IntoIter<I>,
        mails: &mut Mails<I>,
    ) -> Result<(), NoMemory>
        requires peer { (1 ≤ peer) × (peer ≤ 7) }
        requires left { into_iter_len images.old ≡ length (into_iter_items images.old) }
        ensures mail { OnOk result (mails.new ≡ mails.old ++ cond (nat_eq peer self.now.node) [] (cond (lags self.now.node self.now.held (running_of self.now) peer) (install_with self.now.node self.now.held peer index (slice_get (into_iter_items images.old) 0)) (to peer (Mail.Append (append_for self.now.node self.now.held (running_of self.now) peer))))) }
        ensures rest { OnOk result (into_iter_items images.new ≡ cond (lags self.now.node self.now.held (running_of self.now) peer) (drop 1 (into_iter_items images.old)) (into_iter_items images.old)) }
        ensures left { OnOk result (into_iter_len images.new ≡ length (into_iter_items images.new)) }
    {
        let (node, _) = self.numbers();
        if peer == node {
            return Ok(());
        }
        self.beat_peer(peer, index, images, mails)
    }

    // The message for this peer, with the first of the images where it lags.
    fn beat_peer(
        &self,
        peer: u8,
        index: u64,
        images: &mut IntoIter<I>,
        mails: &mut Mails<I>,
    ) -> Result<(), NoMemory>
        requires peer { (1 ≤ peer) × (peer ≤ 7) }
        requires other { peer ≢ self.now.node }
        requires left { into_iter_len images.old ≡ length (into_iter_items images.old) }
        ensures mail { OnOk result (mails.new ≡ mails.old ++ cond (lags self.now.node self.now.held (running_of self.now) peer) (install_with self.now.node self.now.held peer index (slice_get (into_iter_items images.old) 0)) (to peer (Mail.Append (append_for self.now.node self.now.held (running_of self.now) peer)))) }
        ensures rest { OnOk result (into_iter_items images.new ≡ cond (lags self.now.node self.now.held (running_of self.now) peer) (drop 1 (into_iter_items images.old)) (into_iter_items images.old)) }
        ensures left { OnOk result (into_iter_len images.new ≡ length (into_iter_items images.new)) }
    {
        if !self.lags(peer) {
            let append = self.append_for(peer)?;
            return mails.push((peer, Mail::Append(append)));
        }
        match images.next() {
            None => Ok(()),
            Some(image) => mails.push((peer, self.install_for(index, image))),
        }
    }

    // The entries for this peer.
    fn append_for(&self, peer: u8) -> Result<AppendMail, NoMemory>
        requires peer { peer ≤ 7 }
        requires next { self.now.held.log.base < (running_of self.now).nexts peer }
        ensures { IfOk result (λ m. m ≡ append_for self.now.node self.now.held (running_of self.now) peer) }
    {
        let (node, _) = self.numbers();
        let vars = self.variables();
        let prev = vars.nexts[peer as usize] - 1;
        Ok(AppendMail {
            term: self.term(),
            from: node,
            prev,
            prev_term: term_of(self.log(), prev),
            commit: vars.commit,
            entries: self.log().batch(prev)?,
        })
    }

    // An image for a peer, of the tree at this index.
    fn install_for(&self, index: u64, image: I) -> Mail<I>
        ensures { result ≡ Mail.Install self.now.held.term self.now.node index (term_of self.now.held.log index) image }
    {
        let (node, _) = self.numbers();
        Mail::Install {
            term: self.term(),
            from: node,
            index,
            index_term: term_of(self.log(), index),
            image,
        }
    }
}
