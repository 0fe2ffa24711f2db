//! What `--help` and `--version` print.

/// What the program does, and how it is called.
const HELP: &str = "\
keeper keeps a tree of small nodes, as ClickHouse Keeper does.

    keeper store < LINES    runs the lines of the store language on an empty store
    keeper store --help     tells those lines
    keeper load START COUNT runs COUNT lines that are drawn from START on an empty store, and counts what comes of them
    keeper audit N          tells what the home of node N holds: the files keeper-data/nN.j0, nN.j1, nN.i0 and nN.i1
    keeper --version        tells the version, and the logic that proved it

Standard input is read whole before the first line is taken; at a terminal Ctrl-D ends it.
It ends with status 0 where all was done. Any other status is told on standard error, as its
name and a sentence: 2 Usage, 3 BadLine, 4 ReadFault, 5 WriteFault, 6 NoMemory, 7 DiskFault,
8 Damaged, 10 TooLong.
";

/// The lines of the store language.
const STORE_HELP: &str = "\
keeper store < LINES runs the lines on an empty store, and prints what each answers.

    open TIMEOUT PASS          opens a session: milliseconds, 32 hexadecimal digits
    attach S PASS              takes a session over
    expire S                   ends a session that wasn't heard
    create S PATH FLAGS DATA   creates a node; FLAGS 1 ephemeral, 2 numbered; DATA in hexadecimal digits, - for none;
                               behind it an access list: PERMS:SCHEME:ID .., or noacl
    delete S PATH VERSION      deletes a node; version -1 is any
    set S PATH DATA VERSION    sets the data of a node
    setacl S PATH VERSION ACL  sets its access list
    check S PATH VERSION       asks for a version
    auth S SCHEME HEX          shows an id
    multi S OP ; OP ..         does all operations or none: create, delete, set, check without S
    sync S PATH                answers the path
    close S                    ends the session
    raw S EPOCH SEQ COMMAND    a command with an epoch and a running number of its own
    noop                       adds an entry that changes nothing
    time T                     sets the time of the entries to come
    commit                     applies the first unapplied entry
    truncate K                 keeps the entries up to index K
    peek PATH, kids PATH       a node, its children, in the uncommitted state
    see PATH, ls PATH          the same in the committed state
    acl PATH, who S            an access list, a session, in the uncommitted state
";

/// The version of the program, and the sum of the logic that it was proved with, as `rt version` prints it.
const VERSION: &str = "keeper 0.1.0, proved with logic dac8208d650f15bf\n";

/// What is printed where the words ask for it and for nothing else.
pub fn asked_for(words: &[String]) -> Option<&'static str> {
    match words {
        [word] => asked_by(word.as_str()),
        [command, word] if command.as_str() == "store" && word.as_str() == "--help" => {
            Some(STORE_HELP)
        }
        _ => None,
    }
}

/// What one word asks for.
fn asked_by(word: &str) -> Option<&'static str> {
    if word == "--help" || word == "help" {
        Some(HELP)
    } else if word == "--version" {
        Some(VERSION)
    } else {
        None
    }
}
