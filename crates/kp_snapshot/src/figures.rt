//! Reading the numbers of a node.

ghost use Rattle.std.specs.Prelude.{◌≡◌};
ghost use Rattle.kp_jute.specs.Form.{Gives};
ghost use Rattle.kp_entry.specs.Fields.{limited, numbers};
ghost use Rattle.kp_snapshot.specs.Rules.{may_own};
ghost use Rattle.kp_snapshot.specs.Images.{taken, smalls, indexes, times, versions, figures};
ghost use Rattle.kp_snapshot.specs.Ups.{AreRising};
ghost use Rattle.kp_snapshot.specs.Nodes.{figures_of};

use crate::known::is_among;
use kp_entry::{read_number, read_word};
use kp_jute::{JuteFail, Reader};
use kp_model::Meta;
use kp_model::limits::LAST_COUNT;

/// Reads the numbers of a node: indexes, times, versions, owner and the number of children ever made. `ids` are the
/// numbers of the sessions, ascending. The length and the number of children are not told.
pub(crate) fn read_figures(
    reader: &mut Reader<'_>,
    index: u64,
    ids: &[u64],
    is_root: bool,
) -> Result<Meta, JuteFail>
    requires { AreRising ids.now }
    ensures { Gives figures_of result reader.new ((figures index (may_own ids.now is_root)).read reader.old) }
{
    let (czxid, mzxid, pzxid) = read_indexes(reader, index)?;
    let (ctime, mtime) = read_times(reader)?;
    let (version, cversion, aversion) = read_versions(reader)?;
    let owner = read_owner(reader, ids, is_root)?;
    let created = read_small(reader)?;
    Ok(Meta {
        czxid,
        mzxid,
        pzxid,
        ctime,
        mtime,
        version,
        cversion,
        aversion,
        owner,
        created,
        len: 0,
        kids: 0,
    })
}

// Reads czxid, mzxid and pzxid.
fn read_indexes(reader: &mut Reader<'_>, index: u64) -> Result<(u64, u64, u64), JuteFail>
    ensures { Gives (λ t. (t.0, (t.1, t.2))) result reader.new ((indexes index).read reader.old) }
{
    let czxid = read_taken(reader, index)?;
    let mzxid = read_taken(reader, index)?;
    let pzxid = read_taken(reader, index)?;
    Ok((czxid, mzxid, pzxid))
}

// Reads the index of an entry that the image has taken in.
fn read_taken(reader: &mut Reader<'_>, index: u64) -> Result<u64, JuteFail>
    ensures { Gives (λ n. n) result reader.new ((taken index).read reader.old) }
{
    let at = reader.place();
    let number = read_number(reader)?;
    if number > index {
        return Err(JuteFail::BadByte { at });
    }
    Ok(number)
}

fn read_times(reader: &mut Reader<'_>) -> Result<(u64, u64), JuteFail>
    ensures { Gives (λ t. (t.0, t.1)) result reader.new (times.read reader.old) }
{
    let ctime = read_number(reader)?;
    let mtime = read_number(reader)?;
    Ok((ctime, mtime))
}

// Reads version, cversion and aversion.
fn read_versions(reader: &mut Reader<'_>) -> Result<(u32, u32, u32), JuteFail>
    ensures { Gives (λ t. (t.0, (t.1, t.2))) result reader.new (versions.read reader.old) }
{
    let version = read_small(reader)?;
    let cversion = read_small(reader)?;
    let aversion = read_small(reader)?;
    Ok((version, cversion, aversion))
}

fn read_owner(reader: &mut Reader<'_>, ids: &[u64], is_root: bool) -> Result<u64, JuteFail>
    requires { AreRising ids.now }
    ensures { Gives (λ n. n) result reader.new ((limited (may_own ids.now is_root) numbers).read reader.old) }
{
    let at = reader.place();
    let owner = read_number(reader)?;
    if !may_own(ids, is_root, owner) {
        return Err(JuteFail::BadByte { at });
    }
    Ok(owner)
}

/// Whether the root, or another node, may have this owner.
pub(crate) fn may_own(ids: &[u64], is_root: bool, owner: u64) -> bool
    requires { AreRising ids.now }
    ensures { result ≡ may_own ids.now is_root owner }
{
    owner == 0 || (!is_root && is_among(ids, owner))
}

// Reads a count of 31 bits.
fn read_small(reader: &mut Reader<'_>) -> Result<u32, JuteFail>
    ensures { Gives (λ n. n) result reader.new (smalls.read reader.old) }
{
    let at = reader.place();
    let count = read_word(reader)?;
    if count > LAST_COUNT {
        return Err(JuteFail::BadByte { at });
    }
    Ok(count)
}
