//! A node is opened from its home, and stopped.

ghost use Rattle.std.specs.Prelude.{◌≡◌, ◌⊎◌, ℕ, ◌+◌, ◌^◌, ◌<◌, ◌≤◌, [], length, None, Some, Ok, Err, IfOk, IsTrue};
ghost use Rattle.kp_io.specs.Crash.{HasRoom};
ghost use Rattle.kp_io.specs.Faults.{Rose};
ghost use Rattle.kp_io.specs.Homes.{home_faults};
ghost use Rattle.kp_raft.specs.Members.{is_cluster};
ghost use Rattle.kp_homes.specs.declared.fail.HomeFail.TheVariants as home_fail;
ghost use Rattle.kp_homes.specs.Homes.{IsBootedOrNot, IsInRange, IsKept};
ghost use Rattle.kp_homes.specs.Opening.{AreTold, Found, Holds, IsWithin, LeftNow, booted, found};
ghost use Rattle.kp_homes.specs.Stands.{Bytes4, HomeLeft, IsReady};
ghost use Rattle.kp_kept.specs.Ahead.{nothing_waits};
ghost use Rattle.kp_kept.specs.Keeping.{KeepsUp, waiting_of};
ghost use Rattle.kp_kept.specs.Opening.{IsNew, OpensNode, disks_of, fail_of, StartsWith};

use crate::kept::Kept;
use kp_homes::{Home, HomeFail, Kept0};
use kp_io::{Disk, Four};
use kp_model::Items;
use kp_node::{Node, Stored};
use std::alloc::Global;

// What a node starts with.
fn stored_of(kept: Kept0) -> Stored
    ensures { result ≡ record { boot = kept.boot; term = kept.term; vote = kept.vote; image = kept.image; entries = kept.rest.items } }
{
    let Kept0 {
        term,
        vote,
        boot,
        image,
        rest,
    } = kept;
    Stored {
        boot,
        term,
        vote,
        image,
        entries: Items::from_vec(rest),
    }
}

// The node with what its home kept.
fn start<H: Disk>(
    alloc: Global,
    home: Home<H>,
    kept: Kept0,
    node: u8,
    members: u8,
    now: u64,
) -> Result<Kept<H>, (HomeFail, Four<H>)>
    requires members { IsTrue (is_cluster members) }
    requires node { (1 ≤ node) × (node ≤ members) }
    requires room { IsWithin kept.image kept.rest.items }
    requires range { IsInRange kept }
    requires ready { IsReady home.second (H.held home.disks.j0) (H.held home.disks.j1) home.journal }
    ensures disks { disks_of result ≡ home.disks }
    ensures home { IfOk result (λ k. k.home ≡ home) }
    ensures waits { IfOk result (λ k. waiting_of k ≡ nothing_waits) }
    ensures alive { IfOk result (λ k. k.death ≡ None) }
    ensures node { IfOk result (λ k. StartsWith node members now kept k.node) }
    ensures new { IfOk result (λ k. IsNew node members k.node) }
    ensures only { (f : HomeFail) → fail_of result ≡ Some f → f ≡ home_fail.NoMemory }
{
    let stored = stored_of(kept);
    let started = Node::start(alloc, node, members, now, &stored);
    drop(stored);
    match started {
        Ok(node) => Ok(Kept {
            alloc,
            node,
            home,
            waiting: Vec::new(alloc),
            image: None,
            death: None,
            kept: 0,
        }),
        Err(_) => Err((HomeFail::NoMemory, home.close())),
    }
}

impl<H: Disk> Kept<H> {
    /// Opens the home of the node of this number, of a cluster of 1, 3, 5 or 7, and starts the node with what it finds there,
    /// with one start more, at this time in milliseconds. Nothing waits then, and the node has taken no event.
    ///
    /// A refusal hands the disks back. It is one of `Home::open`, or NoMemory where there is none for the node. A crash at any
    /// moment since the call began leaves what one just before it could leave, or a home on which opening finds what it found
    /// here, or that with this start.
    pub fn open(
        alloc: Global,
        disks: Four<H>,
        node: u8,
        members: u8,
        now: u64,
    ) -> Result<Kept<H>, (HomeFail, Four<H>)>
        requires members { IsTrue (is_cluster members) }
        requires node { (1 ≤ node) × (node ≤ members) }
        ensures found { (b : Bytes4) → Holds H.held disks b → OpensNode node members now result (found node b) }
        ensures crash { (b : Bytes4) → AreTold H.held H.past disks b → HasRoom (disks_of result).moments → (n : ℕ) (c : Bytes4) → disks.moments < n → HomeLeft H.past (disks_of result) n c
            → LeftNow H.past disks c ⊎ IsBootedOrNot (found node b) (found node c) }
        ensures keeps { (b : Bytes4) → AreTold H.held H.past disks b → HasRoom (disks_of result).moments → IfOk result (λ k. (f : Found) × (found node b ≡ Ok f) × KeepsUp H.held H.past k (booted f)) }
        ensures waits { IfOk result (λ k. waiting_of k ≡ nothing_waits) }
        ensures node { IfOk result (λ k. k.home.journal.head.node ≡ node) }
        ensures alive { IfOk result (λ k. k.death ≡ None) }
        ensures full { (slot len : ℕ) → fail_of result ≡ Some (home_fail.Full slot len) → 2 ^ 40 < len }
        ensures fault { fail_of result ≡ Some home_fail.DiskFault → Rose (home_faults H.faults disks) (home_faults H.faults (disks_of result)) }
        ensures moment { disks.moments ≤ (disks_of result).moments }
        ensures new { IfOk result (λ k. IsNew node members k.node) }
    {
        match Home::open(alloc, disks, node) {
            Ok((home, kept)) => start(alloc, home, kept, node, members, now),
            Err(refused) => Err(refused),
        }
    }

    /// The disks of its home. What waits is lost, as by a crash. Takes no memory.
    pub fn stop(self) -> Four<H>
        ensures { result ≡ self.home.disks }
    {
        let Kept {
            node,
            home,
            waiting,
            image,
            ..
        } = self;
        drop(node);
        drop(waiting);
        drop(image);
        home.close()
    }

    /// The node.
    pub fn node(&self) -> &Node
        ensures { result.now ≡ self.now.node }
    {
        &self.node
    }
}
