//! What the tag bytes of the formats tell.

/// The kind of an operation, which a multi may hold too.
#[derive(Clone, Copy)]
pub enum OpKind {
    Create,
    Delete,
    SetData,
    Check,
}

/// The kind of a command.
#[derive(Clone, Copy)]
pub enum CmdKind {
    Op(OpKind),
    SetAcl,
    Auth,
    Multi,
    Sync,
    CloseSession,
}

/// The kind of an entry.
#[derive(Clone, Copy)]
pub enum BodyKind {
    Noop,
    OpenSession,
    Attach,
    Expire,
    Write,
}

/// The kind of a record that has bytes.
#[derive(Clone, Copy)]
pub enum RecordKind {
    Vote,
    Boot,
    Append,
    Truncate,
}
