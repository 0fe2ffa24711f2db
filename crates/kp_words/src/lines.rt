//! Parts of the texts. Each function appends one part, of which a beginning may be left where memory runs out.
ghost use Rattle.std.specs.Prelude.{◌≡◌, ◌++◌, codes, OnOk};
ghost use Rattle.std.specs.Fmt.{decimal};
ghost use Rattle.kp_words.specs.Texts.{line, number_line, hex_text, hex_line, path_line, conn_line, tabbed, headed, role_text, mode_text};

use crate::facts::ConnFacts;
use kp_model::{NoMemory, Role, Text};

pub(crate) fn print(text: &str, out: &mut Vec<u8>) -> Result<(), NoMemory>
    ensures { OnOk result (out.new.items ≡ out.old.items ++ text.now) }
{
    out.extend_from_slice(text.as_bytes())?;
    Ok(())
}

#[tactic(auto, unfolding(crate::specs::Texts::line))]
pub(crate) fn print_line(text: &str, out: &mut Vec<u8>) -> Result<(), NoMemory>
    ensures { OnOk result (out.new.items ≡ out.old.items ++ line text.now) }
{
    print(text, out)?;
    print("\n", out)
}

pub(crate) fn print_number(number: u64, out: &mut Vec<u8>) -> Result<(), NoMemory>
    ensures { OnOk result (out.new.items ≡ out.old.items ++ decimal number) }
{
    let text = format!(in *out.allocator(); "{number}")?;
    print(text.as_str(), out)
}

#[tactic(auto, unfolding(crate::specs::Texts::number_line, crate::specs::Texts::line))]
pub(crate) fn print_number_line(number: u64, out: &mut Vec<u8>) -> Result<(), NoMemory>
    ensures { OnOk result (out.new.items ≡ out.old.items ++ number_line number) }
{
    print_number(number, out)?;
    print("\n", out)
}

// A name, and behind it a number and the end of the line.
pub(crate) fn print_named(name: &str, number: u64, out: &mut Vec<u8>) -> Result<(), NoMemory>
    ensures { OnOk result (out.new.items ≡ out.old.items ++ (name.now ++ number_line number)) }
{
    print(name, out)?;
    print_number_line(number, out)
}

// The same with a tab between them.
#[tactic(auto, unfolding(crate::specs::Texts::tabbed))]
pub(crate) fn print_tabbed(name: &str, number: u64, out: &mut Vec<u8>) -> Result<(), NoMemory>
    ensures { OnOk result (out.new.items ≡ out.old.items ++ tabbed name.now number) }
{
    print(name, out)?;
    print("\t", out)?;
    print_number_line(number, out)
}

// A heading with the count of what stands under it.
#[tactic(auto, unfolding(crate::specs::Texts::headed, crate::specs::Texts::line))]
pub(crate) fn print_heading(name: &str, count: u64, out: &mut Vec<u8>) -> Result<(), NoMemory>
    ensures { OnOk result (out.new.items ≡ out.old.items ++ headed name.now count) }
{
    print(name, out)?;
    print(" (", out)?;
    print_number(count, out)?;
    print_line("):", out)
}

#[tactic(auto, unfolding(crate::specs::Texts::hex_text))]
pub(crate) fn print_hex(number: u64, out: &mut Vec<u8>) -> Result<(), NoMemory>
    ensures { OnOk result (out.new.items ≡ out.old.items ++ hex_text number) }
{
    let text = format!(in *out.allocator(); "0x{number:x}")?;
    print(text.as_str(), out)
}

#[tactic(auto, unfolding(crate::specs::Texts::hex_line, crate::specs::Texts::line))]
pub(crate) fn print_hex_line(number: u64, out: &mut Vec<u8>) -> Result<(), NoMemory>
    ensures { OnOk result (out.new.items ≡ out.old.items ++ hex_line number) }
{
    print_hex(number, out)?;
    print("\n", out)
}

// A path behind a tab.
#[tactic(auto, unfolding(crate::specs::Texts::path_line))]
pub(crate) fn print_path(path: &Text, out: &mut Vec<u8>) -> Result<(), NoMemory>
    ensures { OnOk result (out.new.items ≡ out.old.items ++ path_line path.now) }
{
    print("\t", out)?;
    print_line(path.as_str(), out)
}

pub(crate) fn print_conn(conn: &ConnFacts, out: &mut Vec<u8>) -> Result<(), NoMemory>
    ensures { OnOk result (out.new.items ≡ out.old.items ++ conn_line conn.now) }
{
    print(" ", out)?;
    print_number(conn.number, out)?;
    print(" session=", out)?;
    print_hex(conn.session, out)?;
    print(" waiting=", out)?;
    print_number_line(conn.waiting, out)
}

fn role_name(role: Role) -> &'static str
    ensures { result.now ≡ role_text role }
{
    match role {
        Role::Leader => "leader",
        Role::Follower => "follower",
        Role::Candidate => "candidate",
    }
}

// What a node is in the cluster; one that is alone is so called.
#[tactic(auto, unfolding(crate::specs::Texts::mode_text))]
pub(crate) fn mode_name(members: u8, role: Role) -> &'static str
    ensures { result.now ≡ mode_text members role }
{
    if members == 1 {
        "standalone"
    } else {
        role_name(role)
    }
}
