//! Whether texts, data and lists fit the length fields with which they are written down.
ghost use Rattle.std.specs.Prelude.{◌≡◌, ◌==◌, length};
ghost use Rattle.std.specs.List.{list_all};
ghost use Rattle.kp_model.specs.declared.command.Cmd.TheVariants as cmd;
ghost use Rattle.kp_model.specs.Grammar.{is_text, fits_acl, fits_acls, fits_op, fits_cmd, is_fitting};

use crate::command::{Cmd, Op, Ops};
use crate::entry::Body;
use crate::limits::LONGEST_FIELD;
use crate::node::{Acl, Acls};
use crate::text::{Bytes, Text};

impl Text {
    /// Whether its length fits a field of 32 bits.
    pub fn fits(&self) -> bool
        ensures { result ≡ is_text self.now }
    {
        self.len() <= LONGEST_FIELD
    }
}

impl Bytes {
    /// Whether its length fits a field of 32 bits.
    pub fn fits(&self) -> bool
        ensures { result ≡ is_text self.now }
    {
        self.len() <= LONGEST_FIELD
    }
}

impl Acl {
    /// Whether its texts fit their length fields.
    pub fn fits(&self) -> bool
        ensures { result ≡ fits_acl self.now }
    {
        self.scheme.fits() && self.id.fits()
    }
}

impl Op {
    /// Whether its texts, data and lists fit their length fields.
    pub fn fits(&self) -> bool
        ensures { result ≡ fits_op self.now }
    {
        match self {
            Op::Create {
                path,
                bytes,
                acl,
                ..
            } => path.fits() && bytes.fits() && acls_fit(acl),
            Op::Delete { path, .. } => path.fits(),
            Op::SetData { path, bytes, .. } => path.fits() && bytes.fits(),
            Op::Check { path, .. } => path.fits(),
        }
    }
}

impl Cmd {
    /// Whether its texts, data and lists fit their length fields.
    pub fn fits(&self) -> bool
        ensures { result ≡ fits_cmd self.now }
    {
        match self {
            Cmd::Create {
                path,
                bytes,
                acl,
                ..
            } => path.fits() && bytes.fits() && acls_fit(acl),
            Cmd::Delete { path, .. } => path.fits(),
            Cmd::SetData { path, bytes, .. } => path.fits() && bytes.fits(),
            Cmd::SetAcl { path, acl, .. } => path.fits() && acls_fit(acl),
            Cmd::Check { path, .. } => path.fits(),
            Cmd::Auth { scheme, auth } => scheme.fits() && auth.fits(),
            Cmd::Multi { ops } => ops_fit(ops),
            Cmd::Sync { path } => path.fits(),
            Cmd::CloseSession => true,
        }
    }
}

impl Body {
    /// Whether its texts, data and lists fit their length fields. A password always has its 16 bytes.
    pub fn fits(&self) -> bool
        ensures { result ≡ is_fitting self.now }
    {
        match self {
            Body::Noop => true,
            Body::OpenSession { passwd, .. } | Body::Attach { passwd, .. } => is_whole(passwd),
            Body::Expire { .. } => true,
            Body::Write { cmd, .. } => cmd.fits(),
        }
    }
}

// Whether a password has its 16 bytes.
fn is_whole(passwd: &[u8]) -> bool
    ensures { result ≡ (length passwd.now == 16) }
{
    passwd.len() == 16
}

// Whether a list and each of its lines fit.
fn acls_fit(acl: &Acls) -> bool
    ensures { result ≡ fits_acls acl.now }
{
    acl.len() <= LONGEST_FIELD && each_acl_fits(acl.as_slice())
}

fn each_acl_fits(acl: &[Acl]) -> bool
    ensures { result ≡ list_all fits_acl acl.now }
{
    acl.iter().all(|line| line.fits())
}

// Whether a list and each of its operations fit.
fn ops_fit(ops: &Ops) -> bool
    ensures { result ≡ fits_cmd (cmd.Multi ops.now) }
{
    ops.len() <= LONGEST_FIELD && each_op_fits(ops.as_slice())
}

fn each_op_fits(ops: &[Op]) -> bool
    ensures { result ≡ list_all fits_op ops.now }
{
    ops.iter().all(|op| op.fits())
}
