//! The languages and the texts: lines are read from bytes, and replies and looks are printed. A print call appends a
//! whole text, or nothing where memory runs out.
#![tactic(auto)]

mod acl;
mod command;
mod copy;
mod fail;
mod line;
mod print;
mod shape;
mod words;

pub use command::{Command, Operation, Operations};
pub use fail::LineFail;
pub use line::{StoreLine, read_store_line};
pub use print::{
    print_acls, print_data, print_names, print_reply, print_session, print_stat, print_text,
};
pub use words::{data_of, number_of, passwd_of, path_of, words_of};
