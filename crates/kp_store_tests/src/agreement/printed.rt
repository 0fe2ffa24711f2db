//! What is printed of answers and looks, so that two of them can be compared.
use kp_model::{Committed, Meta, NoMemory, Paths, Reply, Session};
use kp_text::{print_data, print_names, print_reply, print_session, print_stat, print_text};
use std::alloc::Global;

/// A kept reply, or that there is none.
pub fn kept_text(alloc: Global, reply: Option<&Reply>) -> Result<Vec<u8>, NoMemory> {
    let mut out = Vec::new(alloc);
    match reply {
        None => print_text("none", &mut out)?,
        Some(reply) => print_reply(reply, &mut out)?,
    }
    Ok(out)
}

/// What a commit answered, or that there was none.
pub fn done_text(alloc: Global, done: Option<&Committed>) -> Result<Vec<u8>, NoMemory> {
    let Some(done) = done else {
        return kept_text(alloc, None);
    };
    let text = format!(in alloc; "{} ", done.index)?;
    let mut out = text.into_bytes();
    print_reply(&done.reply, &mut out)?;
    Ok(out)
}

/// The data and the numbers of a node, or that there is none.
pub fn seen_text(
    alloc: Global,
    bytes: Option<&[u8]>,
    meta: Option<&Meta>,
) -> Result<Vec<u8>, NoMemory> {
    let (Some(bytes), Some(meta)) = (bytes, meta) else {
        return kept_text(alloc, None);
    };
    let mut out = Vec::new(alloc);
    print_data(bytes, &mut out)?;
    print_text(" ", &mut out)?;
    print_stat(meta, &mut out)?;
    Ok(out)
}

/// The names of the children, or that there is no such node.
pub fn kids_text(alloc: Global, names: Option<&Paths>) -> Result<Vec<u8>, NoMemory> {
    let Some(names) = names else {
        return kept_text(alloc, None);
    };
    let mut out = Vec::new(alloc);
    print_names(names.as_slice(), &mut out)?;
    Ok(out)
}

/// A session, or that there is none.
pub fn who_text(alloc: Global, session: Option<&Session>) -> Result<Vec<u8>, NoMemory> {
    let Some(session) = session else {
        return kept_text(alloc, None);
    };
    let mut out = Vec::new(alloc);
    print_session(session, &mut out)?;
    Ok(out)
}
