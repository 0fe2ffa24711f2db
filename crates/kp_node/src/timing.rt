//! A leader sends its followers what they lack, and a log becomes an image.

ghost use Rattle.std.specs.Prelude.{◌≡◌, ◌^◌, ◌<◌, ◌++◌, ◌∷◌, ◌≤◌, [], length, replicate, IfOk, OnOk, OnErr};
ghost use Rattle.kp_entry.specs.Log.{term_of};
ghost use Rattle.kp_raft.specs.Appends.{lagging};
ghost use Rattle.kp_step.specs.Asking.{own_image};
ghost use Rattle.kp_step.specs.Choices.{Choices};
ghost use Rattle.kp_node.specs.Parts.{node_of};
ghost use Rattle.kp_node.specs.Steps.{images as image_form, Steps};
ghost use Rattle.kp_node.specs.Timing.{Sends, Compacts, base_image, beat_step, snapshot_step};

use crate::node::Node;
use crate::outcome::Outcome;
use kp_event::Said;
use kp_model::{Items, NoMemory};
use kp_raft::{RaftEvent, RaftOut};
use kp_snapshot::Image;

impl Node {
    // A leader sends its followers what they lack. After an error nothing has changed.
    pub(crate) fn beat(&mut self) -> Result<Outcome, NoMemory>
        requires { self.old.events < 2 ^ 62 }
        ensures ok { IfOk result (λ o. (ch : Choices) → Steps (beat_step ch (node_of self.old)) self.old self.new o) }
        ensures err { OnErr result (self.new ≡ self.old) }
    {
        let out = self.send()?;
        let said = Said::Beat(out.mail.len() as u32);
        Ok(self.behind(said, out, None))
    }

    // The messages to the followers.
    fn send(&mut self) -> Result<RaftOut<Image>, NoMemory>
        requires { self.old.events < 2 ^ 62 }
        ensures ok { IfOk result (λ out. Sends self.old out self.new) }
        ensures few { IfOk result (λ out. length out.mail ≤ 7) }
        ensures err { OnErr result (self.new ≡ self.old) }
    {
        let images = self.own_images()?;
        let index = self.storage.applied();
        let out = self.raft.step(RaftEvent::Beat { index, images })?;
        self.events += 1;
        Ok(out)
    }

    // An image of the committed state for each follower that lags.
    fn own_images(&self) -> Result<Items<Image>, NoMemory>
        ensures { IfOk result (λ list. list ≡ replicate (lagging (node_of self.now).members (node_of self.now).me (node_of self.now).held (node_of self.now).running) (own_image image_form (node_of self.now))) }
    {
        let count = self.raft.lagging();
        self.copies(count)
    }

    // So many images of the committed state.
    fn copies(&self, count: u32) -> Result<Items<Image>, NoMemory>
        ensures { IfOk result (λ list. list ≡ replicate count (own_image image_form (node_of self.now))) }
    {
        let mut list = Vec::new(self.allocator());
        for turn in 0..count {
            self.push_image(&mut list)?;
        }
        Ok(Items::from_vec(list))
    }

    // Puts an image of the committed state behind the others.
    fn push_image(&self, list: &mut Vec<Image>) -> Result<(), NoMemory>
        ensures { OnOk result (list.new.items ≡ list.old.items ++ own_image image_form (node_of self.now) ∷ []) }
    {
        list.push(self.own_image()?)?;
        Ok(())
    }

    // The image of the committed state.
    pub(crate) fn own_image(&self) -> Result<Image, NoMemory>
        ensures { IfOk result (λ i. i ≡ own_image image_form (node_of self.now)) }
    {
        self.storage.image(self.applied_term())
    }

    // The term of the last applied entry.
    fn applied_term(&self) -> u64
        ensures { result ≡ term_of (node_of self.now).held.log (node_of self.now).state.applied }
    {
        let _commit = self.raft.commit();
        match self.raft.term_at(self.storage.applied()) {
            Some(term) => term,
            None => 0,
        }
    }

    // The log up to the last applied entry becomes an image. After an error nothing has changed.
    pub(crate) fn snapshot(&mut self) -> Result<Outcome, NoMemory>
        requires { self.old.events < 2 ^ 62 }
        ensures ok { IfOk result (λ o. (ch : Choices) → Steps (snapshot_step ch (node_of self.old)) self.old self.new o) }
        ensures err { OnErr result (self.new ≡ self.old) }
    {
        let image = self.base_image()?;
        match self.compact() {
            Ok(out) => {
                let (base, _) = self.raft.base();
                Ok(self.behind(Said::Snapped(base), out, image))
            }
            Err(none) => {
                drop(image);
                Err(none)
            }
        }
    }

    // The image that the log up to the last applied entry becomes; None where it is one already.
    pub(crate) fn base_image(&self) -> Result<Option<Image>, NoMemory>
        ensures { IfOk result (λ i. i ≡ base_image (node_of self.now)) }
    {
        let (base, _) = self.raft.base();
        if self.storage.applied() <= base {
            return Ok(None);
        }
        Ok(Some(self.own_image()?))
    }

    // The last applied entry becomes the base.
    pub(crate) fn compact(&mut self) -> Result<RaftOut<Image>, NoMemory>
        requires { self.old.events < 2 ^ 62 }
        ensures ok { IfOk result (λ out. Compacts self.old out self.new) }
        ensures err { OnErr result (self.new ≡ self.old) }
    {
        let index = self.storage.applied();
        let _commit = self.raft.commit();
        let out = self.raft.step(RaftEvent::Compact { index })?;
        self.events += 1;
        Ok(out)
    }
}
