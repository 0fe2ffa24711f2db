//! Fields that stand together in several requests.

ghost use Rattle.std.specs.Prelude.{◌≡◌, OnOk};
ghost use Rattle.kp_jute.specs.Form.{Gives, Wrote};
ghost use Rattle.kp_wire.specs.Request.{creations, versioneds, watcheds, settings, acl_settings, showings, watches};

use crate::acl::WireAcls;
use crate::list::{read_vector, write_vector};
use crate::request::WireTexts;
use crate::value::{read_bytes, read_text, write_bytes, write_text};
use kp_jute::{JuteFail, NoMemory, Reader, Writer};
use kp_model::{Bytes, Text};
use std::alloc::Global;

/// The fields of a create.
#[derive(Drop)]
pub struct Creation {
    pub path: Option<Text>,
    pub bytes: Option<Bytes>,
    pub acl: Option<WireAcls>,
    pub flags: u32,
}

/// A path, and the version that it is to have.
#[derive(Drop)]
pub struct Versioned {
    pub path: Option<Text>,
    pub version: u32,
}

/// A path, and whether a watch is left there.
#[derive(Drop)]
pub struct Watched {
    pub path: Option<Text>,
    pub watch: bool,
}

/// The fields of a setData.
#[derive(Drop)]
pub struct Setting {
    pub path: Option<Text>,
    pub bytes: Option<Bytes>,
    pub version: u32,
}

/// The fields of a setACL.
#[derive(Drop)]
pub struct AclSetting {
    pub path: Option<Text>,
    pub acl: Option<WireAcls>,
    pub version: u32,
}

/// The fields of an auth.
#[derive(Drop)]
pub struct Showing {
    pub kind: i32,
    pub scheme: Option<Text>,
    pub auth: Option<Bytes>,
}

/// The fields of a setWatches.
#[derive(Drop)]
pub struct Watches {
    pub zxid: i64,
    pub contents: Option<WireTexts>,
    pub exist: Option<WireTexts>,
    pub child: Option<WireTexts>,
}

/// Reads the fields of a creation.
pub(crate) fn read_creation(alloc: Global, reader: &mut Reader<'_>) -> Result<Creation, JuteFail>
    ensures { Gives (λ c. c) result reader.new (creations.read reader.old) }
{
    let path = read_text(alloc, reader)?;
    let bytes = read_bytes(alloc, reader)?;
    let acl = read_vector(alloc, reader)?;
    let flags = reader.unsigned_int()?;
    Ok(Creation {
        path,
        bytes,
        acl,
        flags,
    })
}

/// Reads a path and a version.
pub(crate) fn read_versioned(alloc: Global, reader: &mut Reader<'_>) -> Result<Versioned, JuteFail>
    ensures { Gives (λ v. v) result reader.new (versioneds.read reader.old) }
{
    let path = read_text(alloc, reader)?;
    let version = reader.unsigned_int()?;
    Ok(Versioned { path, version })
}

/// Reads a path, and whether a watch is left there.
pub(crate) fn read_watched(alloc: Global, reader: &mut Reader<'_>) -> Result<Watched, JuteFail>
    ensures { Gives (λ v. v) result reader.new (watcheds.read reader.old) }
{
    let path = read_text(alloc, reader)?;
    let watch = reader.boolean()?;
    Ok(Watched { path, watch })
}

/// Reads the fields of a setting of data.
pub(crate) fn read_setting(alloc: Global, reader: &mut Reader<'_>) -> Result<Setting, JuteFail>
    ensures { Gives (λ s. s) result reader.new (settings.read reader.old) }
{
    let path = read_text(alloc, reader)?;
    let bytes = read_bytes(alloc, reader)?;
    let version = reader.unsigned_int()?;
    Ok(Setting {
        path,
        bytes,
        version,
    })
}

/// Reads the fields of a setting of an access list.
pub(crate) fn read_acl_setting(
    alloc: Global,
    reader: &mut Reader<'_>,
) -> Result<AclSetting, JuteFail>
    ensures { Gives (λ s. s) result reader.new (acl_settings.read reader.old) }
{
    let path = read_text(alloc, reader)?;
    let acl = read_vector(alloc, reader)?;
    let version = reader.unsigned_int()?;
    Ok(AclSetting { path, acl, version })
}

/// Reads what a client shows of itself.
pub(crate) fn read_showing(alloc: Global, reader: &mut Reader<'_>) -> Result<Showing, JuteFail>
    ensures { Gives (λ s. s) result reader.new (showings.read reader.old) }
{
    let kind = reader.int()?;
    let scheme = read_text(alloc, reader)?;
    let auth = read_bytes(alloc, reader)?;
    Ok(Showing { kind, scheme, auth })
}

/// Reads the watches that a client had.
pub(crate) fn read_watches(alloc: Global, reader: &mut Reader<'_>) -> Result<Watches, JuteFail>
    ensures { Gives (λ w. w) result reader.new (watches.read reader.old) }
{
    let zxid = reader.long()?;
    let contents = read_vector(alloc, reader)?;
    let exist = read_vector(alloc, reader)?;
    let child = read_vector(alloc, reader)?;
    Ok(Watches {
        zxid,
        contents,
        exist,
        child,
    })
}

/// Writes the fields of a creation.
pub(crate) fn write_creation(
    writer: &mut Writer,
    path: &Option<Text>,
    bytes: &Option<Bytes>,
    acl: &Option<WireAcls>,
    flags: u32,
) -> Result<(), NoMemory>
    ensures { OnOk result (Wrote creations (record { path = path.now; bytes = bytes.now; acl = acl.now; flags = flags }) writer.old writer.new) }
{
    write_text(writer, path)?;
    write_bytes(writer, bytes)?;
    write_vector(writer, acl)?;
    writer.unsigned_int(flags)?;
    Ok(())
}

/// Writes a path and a version.
pub(crate) fn write_versioned(
    writer: &mut Writer,
    path: &Option<Text>,
    version: u32,
) -> Result<(), NoMemory>
    ensures { OnOk result (Wrote versioneds (record { path = path.now; version = version }) writer.old writer.new) }
{
    write_text(writer, path)?;
    writer.unsigned_int(version)?;
    Ok(())
}

/// Writes a path, and whether a watch is left there.
pub(crate) fn write_watched(
    writer: &mut Writer,
    path: &Option<Text>,
    watch: bool,
) -> Result<(), NoMemory>
    ensures { OnOk result (Wrote watcheds (record { path = path.now; watch = watch }) writer.old writer.new) }
{
    write_text(writer, path)?;
    writer.boolean(watch)?;
    Ok(())
}

/// Writes the fields of a setting of data.
pub(crate) fn write_setting(
    writer: &mut Writer,
    path: &Option<Text>,
    bytes: &Option<Bytes>,
    version: u32,
) -> Result<(), NoMemory>
    ensures { OnOk result (Wrote settings (record { path = path.now; bytes = bytes.now; version = version }) writer.old writer.new) }
{
    write_text(writer, path)?;
    write_bytes(writer, bytes)?;
    writer.unsigned_int(version)?;
    Ok(())
}

/// Writes the fields of a setting of an access list.
pub(crate) fn write_acl_setting(
    writer: &mut Writer,
    path: &Option<Text>,
    acl: &Option<WireAcls>,
    version: u32,
) -> Result<(), NoMemory>
    ensures { OnOk result (Wrote acl_settings (record { path = path.now; acl = acl.now; version = version }) writer.old writer.new) }
{
    write_text(writer, path)?;
    write_vector(writer, acl)?;
    writer.unsigned_int(version)?;
    Ok(())
}

/// Writes what a client shows of itself.
pub(crate) fn write_showing(
    writer: &mut Writer,
    kind: i32,
    scheme: &Option<Text>,
    auth: &Option<Bytes>,
) -> Result<(), NoMemory>
    ensures { OnOk result (Wrote showings (record { kind = kind; scheme = scheme.now; auth = auth.now }) writer.old writer.new) }
{
    writer.int(kind)?;
    write_text(writer, scheme)?;
    write_bytes(writer, auth)?;
    Ok(())
}

/// Writes the watches that a client had.
pub(crate) fn write_watches(
    writer: &mut Writer,
    zxid: i64,
    contents: &Option<WireTexts>,
    exist: &Option<WireTexts>,
    child: &Option<WireTexts>,
) -> Result<(), NoMemory>
    ensures { OnOk result (Wrote watches (record { zxid = zxid; contents = contents.now; exist = exist.now; child = child.now }) writer.old writer.new) }
{
    writer.long(zxid)?;
    write_vector(writer, contents)?;
    write_vector(writer, exist)?;
    write_vector(writer, child)?;
    Ok(())
}
