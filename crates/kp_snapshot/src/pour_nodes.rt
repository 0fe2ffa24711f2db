//! Pouring the nodes of an image.

ghost use Rattle.std.specs.Prelude.{◌≡◌, [], ◌∷◌, ◌++◌, List, length};
ghost use Rattle.kp_model.specs.Poured.{with_node};
ghost use Rattle.kp_snapshot.specs.Images.{node_behind, nodes};
ghost use Rattle.kp_snapshot.specs.Knowing.{Stand};
ghost use Rattle.kp_snapshot.specs.Filled.{Gets, with_nodes};
ghost use Rattle.kp_snapshot.specs.Rows.{rows_at};
ghost use Rattle.kp_snapshot.specs.Rules.{Placed};
ghost use Rattle.kp_snapshot.specs.Ups.{AreRising};

use crate::nodes::{Body, Found, read_node};
use crate::trail::Trail;
use kp_jute::{JuteFail, Reader};
use kp_model::Fill;
use std::alloc::Global;

/// Hands the nodes of an image over, behind their count.
pub(crate) fn pour_nodes<F: Fill>(
    alloc: Global,
    reader: &mut Reader<'_>,
    index: u64,
    ids: &[u64],
    into: &mut F,
) -> Result<(), JuteFail>
    requires may { F.takes into.old }
    requires ids { AreRising ids.now }
    ensures set { Gets (λ _ ns. F.state into.new ≡ with_nodes (F.state into.old) ns) result reader.new ((nodes index ids.now).read reader.old) }
    ensures may { F.takes into.new }
{
    let at = reader.place();
    let count = reader.unsigned_int()?;
    pour_each(alloc, reader, count, index, ids, into)?;
    if count == 0 {
        return Err(JuteFail::BadByte { at });
    }
    Ok(())
}

// Hands so many nodes over behind none.
fn pour_each<F: Fill>(
    alloc: Global,
    reader: &mut Reader<'_>,
    count: u32,
    index: u64,
    ids: &[u64],
    into: &mut F,
) -> Result<(), JuteFail>
    requires may { F.takes into.old }
    requires ids { AreRising ids.now }
    ensures set { Gets (λ _ ns. (length ns ≡ count) × (F.state into.new ≡ with_nodes (F.state into.old) ns)) result reader.new (rows_at (λ before. (node_behind index ids.now before).read) count [] reader.old) }
    ensures may { F.takes into.new }
{
    let mut trail = Trail::new(alloc);
    for _ in 0..count {
        pour_node(alloc, reader, &mut trail, index, ids, into)?;
    }
    Ok(())
}

// Hands the next node over.
fn pour_node<'a, F: Fill>(
    alloc: Global,
    reader: &mut Reader<'a>,
    trail: &mut Trail<'a>,
    index: u64,
    ids: &[u64],
    into: &mut F,
) -> Result<(), JuteFail>
    requires may { F.takes into.old }
    requires ids { AreRising ids.now }
    ensures set { (before : List Placed) → Stand before trail.old.last.now trail.old.ups.items → Gets (λ _ x. (F.state into.new ≡ with_node (F.state into.old) x.0 x.1) × Stand (before ++ x ∷ []) trail.new.last.now trail.new.ups.items) result reader.new ((node_behind index ids.now before).read reader.old) }
    ensures may { F.takes into.new }
{
    let found = read_node(alloc, reader, trail, index, ids)?;
    let Found { path, body } = found;
    let Body { content, acl, meta } = body;
    let put = into.node(path, content, acl.as_slice(), &meta);
    drop(acl);
    match put {
        Ok(()) => Ok(()),
        Err(_) => Err(JuteFail::NoMemory),
    }
}
