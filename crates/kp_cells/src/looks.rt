//! Look-ups by path, session number and part.
ghost use Rattle.std.specs.Prelude.{◌≡◌, ◌==◌, not, option_copied};
ghost use Rattle.std.specs.FinMap as map;
ghost use Rattle.std.specs.Option.{option_and_then};
ghost use Rattle.kp_layers.specs.Layering.{latest_of};
ghost use Rattle.kp_cells.specs.Overlays.{latest_parts, committed_parts, committed_state};
ghost use Rattle.kp_cells.specs.Parts.{FitTogether};
ghost use Rattle.kp_cells.specs.Mapped.{kept};

use crate::cells::Cells;
use crate::names::Names;
use kp_layers::{GroupedLayers, Grouping};
use kp_model::{Acl, Meta, Session};

/// What the layers have at the path under all layers.
pub fn latest_at<'a, V, S: Grouping<V>>(
    names: &Names,
    layers: &'a GroupedLayers<V, S>,
    path: &str,
) -> Option<&'a V>
    ensures { option_copied result ≡ option_and_then (map.get (latest_of layers.now)) (map.get names.now.numbers path.now) }
{
    match names.get(path) {
        Some(number) => layers.latest(number),
        None => None,
    }
}

/// What the layers have at the path below all layers.
pub fn committed_at<'a, V, S: Grouping<V>>(
    names: &Names,
    layers: &'a GroupedLayers<V, S>,
    path: &str,
) -> Option<&'a V>
    ensures { option_copied result ≡ option_and_then (map.get layers.now.base) (map.get names.now.numbers path.now) }
{
    match names.get(path) {
        Some(number) => layers.committed(number),
        None => None,
    }
}

impl Cells {
    /// The index of the last entry that was made part of the committed state.
    pub fn applied(&self) -> u64
        ensures { result ≡ self.now.applied }
    {
        self.applied
    }

    /// How many nodes the committed state has. Costs the same however many there are, as the two
    /// counts below do.
    pub fn node_count(&self) -> u64
        ensures { result ≡ map.len (committed_state self.now).nodes }
    {
        self.nodes.metas.committed_len()
    }

    /// How many nodes of the committed state have an owner.
    pub fn owned_count(&self) -> u64
        requires { FitTogether (committed_parts self.now) }
        ensures { result ≡ map.len (kept (λ _ n. not (n.owner == 0)) (committed_state self.now).nodes) }
    {
        self.nodes.owners.committed_len()
    }

    /// How many sessions the committed state has.
    pub fn session_count(&self) -> u64
        ensures { result ≡ map.len (committed_state self.now).sessions }
    {
        self.sessions.committed_len()
    }

    /// What is shown of the node at the path under all layers.
    pub fn latest_meta(&self, path: &str) -> Option<&Meta>
        ensures { option_copied result ≡ map.get (latest_of self.now.metas) path.now }
    {
        latest_at(&self.names, &self.nodes.metas, path)
    }

    /// What is shown of the node at the path below all layers.
    pub fn committed_meta(&self, path: &str) -> Option<&Meta>
        ensures { option_copied result ≡ map.get self.now.metas.base path.now }
    {
        committed_at(&self.names, &self.nodes.metas, path)
    }

    /// The data of the node at the path under all layers.
    pub fn latest_content(&self, path: &str) -> Option<&[u8]>
        ensures { option_copied result ≡ map.get (latest_of self.now.contents) path.now }
    {
        match latest_at(&self.names, &self.nodes.contents, path) {
            Some(bytes) => Some(bytes.as_slice()),
            None => None,
        }
    }

    /// The data of the node at the path below all layers.
    pub fn committed_content(&self, path: &str) -> Option<&[u8]>
        ensures { option_copied result ≡ map.get self.now.contents.base path.now }
    {
        match committed_at(&self.names, &self.nodes.contents, path) {
            Some(bytes) => Some(bytes.as_slice()),
            None => None,
        }
    }

    /// The access list of the node at the path under all layers.
    pub fn latest_acl(&self, path: &str) -> Option<&[Acl]>
        ensures { option_copied result ≡ map.get (latest_of self.now.acls) path.now }
    {
        match latest_at(&self.names, &self.nodes.acls, path) {
            Some(acl) => Some(acl.as_slice()),
            None => None,
        }
    }

    /// The access list of the node at the path below all layers.
    pub fn committed_acl(&self, path: &str) -> Option<&[Acl]>
        ensures { option_copied result ≡ map.get self.now.acls.base path.now }
    {
        match committed_at(&self.names, &self.nodes.acls, path) {
            Some(acl) => Some(acl.as_slice()),
            None => None,
        }
    }

    /// The session of the number under all layers.
    pub fn latest_session(&self, id: u64) -> Option<&Session>
        ensures { option_copied result ≡ map.get (latest_of self.now.sessions) id }
    {
        self.sessions.latest(id)
    }

    /// The session of the number below all layers.
    pub fn committed_session(&self, id: u64) -> Option<&Session>
        ensures { option_copied result ≡ map.get self.now.sessions.base id }
    {
        self.sessions.committed(id)
    }

    /// The next session number under all layers.
    pub fn latest_next(&self) -> u64
        ensures { result ≡ (latest_parts self.now).next }
    {
        match self.next.latest(0) {
            Some(next) => *next,
            None => 1,
        }
    }

    /// The next session number below all layers.
    pub fn committed_next(&self) -> u64
        ensures { result ≡ (committed_parts self.now).next }
    {
        match self.next.committed(0) {
            Some(next) => *next,
            None => 1,
        }
    }
}
