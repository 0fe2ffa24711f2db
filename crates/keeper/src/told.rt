//! What is told of a status on standard error: its name, and a sentence.
use kp_top::Status;

/// The name of a status without numbers, and its sentence.
fn sentence(status: &Status) -> &'static str {
    match status {
        Status::Usage => {
            "Usage: these words are no command; keeper --help tells those that there are"
        }
        Status::ReadFault => { "ReadFault: standard input could not be read; nothing was written" }
        Status::WriteFault => {
            "WriteFault: standard output could not be written; it has a beginning of what belongs there"
        }
        Status::NoMemory => {
            "NoMemory: memory ran out; standard output has a beginning of what belongs there"
        }
        Status::DiskFault => { "DiskFault: a file of the home failed, as told above" }
        Status::NetFault => "NetFault: the net failed",
        Status::TooLong => {
            "TooLong: the input has more than 67,108,864 bytes; nothing was written"
        }
        _ => "",
    }
}

/// The end of the name of a slot's file.
fn file_of(slot: u64) -> &'static str {
    match slot {
        0 => ".j0",
        1 => ".j1",
        2 => ".i0",
        _ => ".i1",
    }
}

/// Tells a status other than Done.
pub fn tell(rt: &HostRuntime, status: &Status) {
    let _ = match status {
        Status::Done => Ok(()),
        Status::BadLine { n } => {
            eprintln!(rt;
                "BadLine: line {n} of the input is outside the grammar; the lines before it were done and printed"
            )
        }
        Status::Damaged { slot, at } => {
            let file = file_of(*slot);
            eprintln!(rt;
                "Damaged: slot {slot} of the home, the file {file}, leaves its format at byte {at}"
            )
        }
        Status::Full { slot, len } => {
            eprintln!(rt; "Full: slot {slot} of the home would have {len} bytes, which is too many")
        }
        other => eprintln!(rt; "{}", sentence(other)),
    };
}
