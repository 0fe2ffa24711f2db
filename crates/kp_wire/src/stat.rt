//! The numbers of a node as they are sent.

ghost use Rattle.std.specs.Prelude.{◌≡◌, OnOk};
ghost use Rattle.kp_jute.specs.Form.{Gives, Wrote};
ghost use Rattle.kp_wire.specs.Common.{stats, times, versions, sizes, times_of, versions_of, sizes_of};
ghost use Rattle.kp_wire.specs.Stats.{stat_of};

use kp_jute::{JuteFail, NoMemory, Reader, Writer};
use kp_model::Meta;

/// The numbers of a node as they are sent. Each stands for a long or an int in two's complement. Indexes
/// are those of log entries, times are milliseconds.
#[derive(Clone, Copy)]
pub struct Stat {
    /// The index of the entry that made the node.
    pub czxid: u64,
    /// The index of the entry that last set its data.
    pub mzxid: u64,
    /// The index of the entry that last changed the set of its children.
    pub pzxid: u64,
    /// The time of the entry that made it.
    pub ctime: u64,
    /// The time of the entry that last set its data.
    pub mtime: u64,
    /// How often its data was set.
    pub version: u32,
    /// How often its set of children changed.
    pub cversion: u32,
    /// How often its access list was set.
    pub aversion: u32,
    /// The session that owns it, or 0.
    pub owner: u64,
    /// The length of its data in bytes.
    pub len: u32,
    /// How many children it has.
    pub kids: u32,
}

impl Stat {
    /// The numbers of a node as they are sent.
    pub fn of(meta: &Meta) -> Stat
        ensures { result ≡ stat_of meta.now }
    {
        Stat {
            czxid: meta.czxid,
            mzxid: meta.mzxid,
            pzxid: meta.pzxid,
            ctime: meta.ctime,
            mtime: meta.mtime,
            version: meta.version,
            cversion: meta.cversion,
            aversion: meta.aversion,
            owner: meta.owner,
            len: meta.len,
            kids: meta.kids,
        }
    }
}

/// Reads a node's numbers.
pub(crate) fn read_stat(reader: &mut Reader<'_>) -> Result<Stat, JuteFail>
    ensures { Gives (λ s. s) result reader.new (stats.read reader.old) }
{
    let czxid = reader.unsigned_long()?;
    let mzxid = reader.unsigned_long()?;
    let ctime = reader.unsigned_long()?;
    let mtime = reader.unsigned_long()?;
    let version = reader.unsigned_int()?;
    let cversion = reader.unsigned_int()?;
    let aversion = reader.unsigned_int()?;
    let owner = reader.unsigned_long()?;
    let len = reader.unsigned_int()?;
    let kids = reader.unsigned_int()?;
    let pzxid = reader.unsigned_long()?;
    Ok(Stat {
        czxid,
        mzxid,
        pzxid,
        ctime,
        mtime,
        version,
        cversion,
        aversion,
        owner,
        len,
        kids,
    })
}

/// Writes a node's numbers.
pub(crate) fn write_stat(writer: &mut Writer, stat: &Stat) -> Result<(), NoMemory>
    ensures { OnOk result (Wrote stats stat.now writer.old writer.new) }
{
    write_times(writer, stat)?;
    write_versions(writer, stat)?;
    write_sizes(writer, stat)?;
    Ok(())
}

fn write_times(writer: &mut Writer, stat: &Stat) -> Result<(), NoMemory>
    ensures { OnOk result (Wrote times (times_of stat.now) writer.old writer.new) }
{
    writer.unsigned_long(stat.czxid)?;
    writer.unsigned_long(stat.mzxid)?;
    writer.unsigned_long(stat.ctime)?;
    writer.unsigned_long(stat.mtime)?;
    Ok(())
}

fn write_versions(writer: &mut Writer, stat: &Stat) -> Result<(), NoMemory>
    ensures { OnOk result (Wrote versions (versions_of stat.now) writer.old writer.new) }
{
    writer.unsigned_int(stat.version)?;
    writer.unsigned_int(stat.cversion)?;
    writer.unsigned_int(stat.aversion)?;
    Ok(())
}

fn write_sizes(writer: &mut Writer, stat: &Stat) -> Result<(), NoMemory>
    ensures { OnOk result (Wrote sizes (sizes_of stat.now) writer.old writer.new) }
{
    writer.unsigned_long(stat.owner)?;
    writer.unsigned_int(stat.len)?;
    writer.unsigned_int(stat.kids)?;
    writer.unsigned_long(stat.pzxid)?;
    Ok(())
}
