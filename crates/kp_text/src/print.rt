//! What is printed. Without memory a public call appends nothing; those below it may leave a beginning of their text.
ghost use Rattle.std.specs.Prelude.{◌≡◌, ◌++◌, length, map, OnOk, OnErr, codes};
ghost use Rattle.std.specs.Fmt.{decimal};
ghost use Rattle.kp_text.specs.Texts.{data_text, stat_text, indexes_text, times_text, versions_text, sizes_text, reply_text, names_text, acls_text, session_text, op_reply_text, error_text, further_text, parts_text};
ghost use Rattle.kp_text.specs.Spelling.{spelled_acl};

use kp_model::{Acl, Meta, NoMemory, OpReply, Reply, Session, Text};

fn append(bytes: &[u8], out: &mut Vec<u8>) -> Result<(), NoMemory>
    ensures ok { OnOk result (out.new.items ≡ out.old.items ++ bytes.now) }
    ensures err { OnErr result (out.new.items ≡ out.old.items) }
{
    out.extend_from_slice(bytes)?;
    Ok(())
}

/// Appends a text as it is.
pub fn print_text(text: &str, out: &mut Vec<u8>) -> Result<(), NoMemory>
    ensures ok { OnOk result (out.new.items ≡ out.old.items ++ text.now) }
    ensures err { OnErr result (out.new.items ≡ out.old.items) }
{
    append(text.as_bytes(), out)
}

fn print_indexes(cz: u64, mz: u64, pz: u64, out: &mut Vec<u8>) -> Result<(), NoMemory>
    ensures { OnOk result (out.new.items ≡ out.old.items ++ indexes_text cz mz pz) }
{
    let text = format!(in *out.allocator(); "cz={cz} mz={mz} pz={pz}")?;
    print_text(text.as_str(), out)
}

fn print_times(ct: u64, mt: u64, out: &mut Vec<u8>) -> Result<(), NoMemory>
    ensures { OnOk result (out.new.items ≡ out.old.items ++ times_text ct mt) }
{
    let text = format!(in *out.allocator(); " ct={ct} mt={mt}")?;
    print_text(text.as_str(), out)
}

fn print_versions(v: u32, cv: u32, av: u32, out: &mut Vec<u8>) -> Result<(), NoMemory>
    ensures { OnOk result (out.new.items ≡ out.old.items ++ versions_text v cv av) }
{
    let text = format!(in *out.allocator(); " v={v} cv={cv} av={av}")?;
    print_text(text.as_str(), out)
}

fn print_sizes(own: u64, len: u32, kids: u32, out: &mut Vec<u8>) -> Result<(), NoMemory>
    ensures { OnOk result (out.new.items ≡ out.old.items ++ sizes_text own len kids) }
{
    let text = format!(in *out.allocator(); " own={own} len={len} kids={kids}")?;
    print_text(text.as_str(), out)
}

#[tactic(auto, unfolding(crate::specs::Texts::stat_text))]
fn write_stat(meta: &Meta, out: &mut Vec<u8>) -> Result<(), NoMemory>
    ensures { OnOk result (out.new.items ≡ out.old.items ++ stat_text meta.now) }
{
    print_indexes(meta.czxid, meta.mzxid, meta.pzxid, out)?;
    print_times(meta.ctime, meta.mtime, out)?;
    print_versions(meta.version, meta.cversion, meta.aversion, out)?;
    print_sizes(meta.owner, meta.len, meta.kids, out)
}

/// Appends the numbers of a node, from `cz=` to `kids=`.
pub fn print_stat(meta: &Meta, out: &mut Vec<u8>) -> Result<(), NoMemory>
    ensures ok { OnOk result (out.new.items ≡ out.old.items ++ stat_text meta.now) }
    ensures err { OnErr result (out.new.items ≡ out.old.items) }
{
    let mut text = Vec::new(*out.allocator());
    write_stat(meta, &mut text)?;
    append(text.as_slice(), out)
}

/// Appends bytes in lower-case hexadecimal, `-` for none.
#[tactic(auto, unfolding(crate::specs::Texts::data_text))]
pub fn print_data(bytes: &[u8], out: &mut Vec<u8>) -> Result<(), NoMemory>
    ensures ok { OnOk result (out.new.items ≡ out.old.items ++ data_text bytes.now) }
    ensures err { OnErr result (out.new.items ≡ out.old.items) }
{
    if bytes.is_empty() {
        return print_text("-", out);
    }
    let text = hex::encode(*out.allocator(), bytes)?;
    print_text(text.as_str(), out)
}

fn print_name(name: &Text, out: &mut Vec<u8>) -> Result<(), NoMemory>
    ensures { OnOk result (out.new.items ≡ out.old.items ++ (codes " " ++ name.now)) }
{
    print_text(" ", out)?;
    print_text(name.as_str(), out)
}

fn write_names(names: &[Text], out: &mut Vec<u8>) -> Result<(), NoMemory>
    ensures { OnOk result (out.new.items ≡ out.old.items ++ names_text names.now) }
{
    for name in names {
        print_name(name, out)?;
    }
    Ok(())
}

/// Appends names, each behind a space.
pub fn print_names(names: &[Text], out: &mut Vec<u8>) -> Result<(), NoMemory>
    ensures ok { OnOk result (out.new.items ≡ out.old.items ++ names_text names.now) }
    ensures err { OnErr result (out.new.items ≡ out.old.items) }
{
    let mut text = Vec::new(*out.allocator());
    write_names(names, &mut text)?;
    append(text.as_slice(), out)
}

fn print_perms(perms: u32, out: &mut Vec<u8>) -> Result<(), NoMemory>
    ensures { OnOk result (out.new.items ≡ out.old.items ++ (codes " " ++ (decimal perms ++ codes ":"))) }
{
    let text = format!(in *out.allocator(); " {perms}:")?;
    print_text(text.as_str(), out)
}

fn print_acl(acl: &Acl, out: &mut Vec<u8>) -> Result<(), NoMemory>
    ensures { OnOk result (out.new.items ≡ out.old.items ++ (codes " " ++ spelled_acl acl.now)) }
{
    print_perms(acl.perms, out)?;
    print_text(acl.scheme.as_str(), out)?;
    print_text(":", out)?;
    print_text(acl.id.as_str(), out)
}

fn write_acls(acls: &[Acl], out: &mut Vec<u8>) -> Result<(), NoMemory>
    ensures { OnOk result (out.new.items ≡ out.old.items ++ acls_text acls.now) }
{
    for acl in acls {
        print_acl(acl, out)?;
    }
    Ok(())
}

/// Appends the lines of an access list, each as `PERMS:SCHEME:ID` behind a space.
pub fn print_acls(acls: &[Acl], out: &mut Vec<u8>) -> Result<(), NoMemory>
    ensures ok { OnOk result (out.new.items ≡ out.old.items ++ acls_text acls.now) }
    ensures err { OnErr result (out.new.items ≡ out.old.items) }
{
    let mut text = Vec::new(*out.allocator());
    write_acls(acls, &mut text)?;
    append(text.as_slice(), out)
}

fn print_span(timeout: u32, epoch: u64, out: &mut Vec<u8>) -> Result<(), NoMemory>
    ensures { OnOk result (out.new.items ≡ out.old.items ++ (codes "timeout=" ++ (decimal timeout ++ (codes " epoch=" ++ decimal epoch)))) }
{
    let text = format!(in *out.allocator(); "timeout={timeout} epoch={epoch}")?;
    print_text(text.as_str(), out)
}

fn print_counts(seq: u64, ids: usize, out: &mut Vec<u8>) -> Result<(), NoMemory>
    ensures { OnOk result (out.new.items ≡ out.old.items ++ (codes " seq=" ++ (decimal seq ++ (codes " ids=" ++ decimal ids)))) }
{
    let text = format!(in *out.allocator(); " seq={seq} ids={ids}")?;
    print_text(text.as_str(), out)
}

#[tactic(auto, unfolding(crate::specs::Texts::session_text))]
fn write_session(session: &Session, out: &mut Vec<u8>) -> Result<(), NoMemory>
    ensures { OnOk result (out.new.items ≡ out.old.items ++ session_text session.now) }
{
    print_span(session.timeout, session.epoch, out)?;
    print_counts(session.seq, session.ids.len(), out)
}

/// Appends the numbers of a session, from `timeout=` to `ids=`.
pub fn print_session(session: &Session, out: &mut Vec<u8>) -> Result<(), NoMemory>
    ensures ok { OnOk result (out.new.items ≡ out.old.items ++ session_text session.now) }
    ensures err { OnErr result (out.new.items ≡ out.old.items) }
{
    let mut text = Vec::new(*out.allocator());
    write_session(session, &mut text)?;
    append(text.as_slice(), out)
}

fn print_path(path: &Text, out: &mut Vec<u8>) -> Result<(), NoMemory>
    ensures { OnOk result (out.new.items ≡ out.old.items ++ (codes "ok path=" ++ path.now)) }
{
    print_text("ok path=", out)?;
    print_text(path.as_str(), out)
}

fn print_changed(meta: &Meta, out: &mut Vec<u8>) -> Result<(), NoMemory>
    ensures { OnOk result (out.new.items ≡ out.old.items ++ (codes "ok " ++ stat_text meta.now)) }
{
    print_text("ok ", out)?;
    write_stat(meta, out)
}

fn print_error(code: i32, out: &mut Vec<u8>) -> Result<(), NoMemory>
    ensures { OnOk result (out.new.items ≡ out.old.items ++ error_text code) }
{
    let text = format!(in *out.allocator(); "err={code}")?;
    print_text(text.as_str(), out)
}

fn print_session_number(id: u64, out: &mut Vec<u8>) -> Result<(), NoMemory>
    ensures { OnOk result (out.new.items ≡ out.old.items ++ (codes "ok session=" ++ decimal id)) }
{
    let text = format!(in *out.allocator(); "ok session={id}")?;
    print_text(text.as_str(), out)
}

fn print_epoch(epoch: u64, out: &mut Vec<u8>) -> Result<(), NoMemory>
    ensures { OnOk result (out.new.items ≡ out.old.items ++ (codes "ok epoch=" ++ decimal epoch)) }
{
    let text = format!(in *out.allocator(); "ok epoch={epoch}")?;
    print_text(text.as_str(), out)
}

fn print_op_reply(reply: &OpReply, out: &mut Vec<u8>) -> Result<(), NoMemory>
    ensures { OnOk result (out.new.items ≡ out.old.items ++ op_reply_text reply.now) }
{
    match reply {
        OpReply::Done => print_text("ok", out),
        OpReply::Path(path) => print_path(path, out),
        OpReply::PathStat(path, _) => print_path(path, out),
        OpReply::Stat(meta) => print_changed(meta, out),
    }
}

fn print_further_reply(reply: &OpReply, out: &mut Vec<u8>) -> Result<(), NoMemory>
    ensures { OnOk result (out.new.items ≡ out.old.items ++ (codes " | " ++ op_reply_text reply.now)) }
{
    print_text(" | ", out)?;
    print_op_reply(reply, out)
}

fn print_further_replies(replies: &[OpReply], out: &mut Vec<u8>) -> Result<(), NoMemory>
    ensures { OnOk result (out.new.items ≡ out.old.items ++ further_text (map op_reply_text replies.now)) }
{
    for reply in replies {
        print_further_reply(reply, out)?;
    }
    Ok(())
}

fn print_op_replies(replies: &[OpReply], out: &mut Vec<u8>) -> Result<(), NoMemory>
    ensures { OnOk result (out.new.items ≡ out.old.items ++ parts_text (map op_reply_text replies.now)) }
{
    match replies {
        [] => Ok(()),
        [first, others @ ..] => {
            print_text(" ", out)?;
            print_op_reply(first, out)?;
            print_further_replies(others, out)
        }
    }
}

fn print_further_error(code: &i32, out: &mut Vec<u8>) -> Result<(), NoMemory>
    ensures { OnOk result (out.new.items ≡ out.old.items ++ (codes " | " ++ error_text code.now)) }
{
    print_text(" | ", out)?;
    print_error(*code, out)
}

fn print_further_errors(errors: &[i32], out: &mut Vec<u8>) -> Result<(), NoMemory>
    ensures { OnOk result (out.new.items ≡ out.old.items ++ further_text (map error_text errors.now)) }
{
    for code in errors {
        print_further_error(code, out)?;
    }
    Ok(())
}

fn print_errors(errors: &[i32], out: &mut Vec<u8>) -> Result<(), NoMemory>
    ensures { OnOk result (out.new.items ≡ out.old.items ++ parts_text (map error_text errors.now)) }
{
    match errors {
        [] => Ok(()),
        [first, others @ ..] => {
            print_text(" ", out)?;
            print_error(*first, out)?;
            print_further_errors(others, out)
        }
    }
}

fn print_multi_head(count: usize, out: &mut Vec<u8>) -> Result<(), NoMemory>
    ensures { OnOk result (out.new.items ≡ out.old.items ++ (codes "multi " ++ (decimal count ++ codes ":"))) }
{
    let text = format!(in *out.allocator(); "multi {count}:")?;
    print_text(text.as_str(), out)
}

fn print_multi(replies: &[OpReply], out: &mut Vec<u8>) -> Result<(), NoMemory>
    ensures { OnOk result (out.new.items ≡ out.old.items ++ (codes "multi " ++ (decimal (length replies.now) ++ (codes ":" ++ parts_text (map op_reply_text replies.now))))) }
{
    print_multi_head(replies.len(), out)?;
    print_op_replies(replies, out)
}

fn print_failed_head(count: usize, out: &mut Vec<u8>) -> Result<(), NoMemory>
    ensures { OnOk result (out.new.items ≡ out.old.items ++ (codes "fail " ++ (decimal count ++ codes ":"))) }
{
    let text = format!(in *out.allocator(); "fail {count}:")?;
    print_text(text.as_str(), out)
}

fn print_failed(errors: &[i32], out: &mut Vec<u8>) -> Result<(), NoMemory>
    ensures { OnOk result (out.new.items ≡ out.old.items ++ (codes "fail " ++ (decimal (length errors.now) ++ (codes ":" ++ parts_text (map error_text errors.now))))) }
{
    print_failed_head(errors.len(), out)?;
    print_errors(errors, out)
}

#[tactic(auto, unfolding(crate::specs::Texts::reply_text))]
fn write_reply(reply: &Reply, out: &mut Vec<u8>) -> Result<(), NoMemory>
    ensures { OnOk result (out.new.items ≡ out.old.items ++ reply_text reply.now) }
{
    match reply {
        Reply::Stale => print_text("stale", out),
        Reply::Err(code) => print_error(*code, out),
        Reply::Session(id) => print_session_number(*id, out),
        Reply::Epoch(epoch) => print_epoch(*epoch, out),
        Reply::Path(path) => print_path(path, out),
        Reply::Stat(meta) => print_changed(meta, out),
        Reply::PathStat(path, _) => print_path(path, out),
        Reply::Done => print_text("ok", out),
        Reply::Multi(replies) => print_multi(replies.as_slice(), out),
        Reply::Failed(errors) => print_failed(errors.as_slice(), out),
    }
}

/// Appends a reply.
pub fn print_reply(reply: &Reply, out: &mut Vec<u8>) -> Result<(), NoMemory>
    ensures ok { OnOk result (out.new.items ≡ out.old.items ++ reply_text reply.now) }
    ensures err { OnErr result (out.new.items ≡ out.old.items) }
{
    let mut text = Vec::new(*out.allocator());
    write_reply(reply, &mut text)?;
    append(text.as_slice(), out)
}
