//! Log entries and records as bytes.
#![tactic(auto)]

mod body;
mod command;
mod entries;
mod entry;
mod fail;
mod fields;
mod kinds;
mod limits;
mod list;
mod pieces;
mod promises;
mod put_body;
mod put_command;
mod put_fields;
mod record;
mod records;
mod room;

pub use body::read_entry;
pub use entries::{Entries, spelled_entry, spelled_term};
pub use entry::{decode, encode};
pub use fail::EntryFail;
pub use fields::{
    lend_bytes, lend_text, read_byte, read_bytes, read_number, read_origin, read_password,
    read_text, read_timeout, read_word,
};
pub use list::{Item, put_items, put_list, read_list};
pub use promises::{laws, no_entry_begins_another};
pub use put_body::put_entry;
pub use put_fields::{
    put_byte, put_bytes, put_number, put_origin, put_password, put_text, put_timeout, put_word,
};
pub use record::{Record, put_record, read_record};
pub use records::Records;
pub use room::Room;
