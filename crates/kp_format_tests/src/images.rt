//! Images: where one that breaks a rule is refused, and what is read of one that breaks none.
ghost use Rattle.std.specs.Prelude.{◌≡◌};

use kp_model::NoMemory;
use kp_snapshot::{ImageFail, read};
use std::alloc::Global;

// Two sessions, and the nodes /, /a, /a/b, which the second session owns, and /c, as of index 5 of term 3.
const IMAGE: &[u8] = &[
    75, 80, 73, 49, 0, 0, 0, 0, 0, 0, 0, 5, 0, 0, 0, 0, 0, 0, 0, 3, 0, 0, 0, 0, 0, 0, 0, 3, 0, 0,
    0, 2, 0, 0, 0, 0, 0, 0, 0, 1, 0, 0, 117, 48, 0, 1, 2, 3, 4, 5, 6, 7, 8, 9, 10, 11, 12, 13, 14,
    15, 0, 0, 0, 0, 0, 0, 0, 1, 0, 0, 0, 0, 0, 0, 0, 2, 1, 0, 0, 0, 0, 0, 0, 0, 1, 0, 0, 0, 0, 0,
    0, 0, 1, 0, 0, 0, 0, 0, 0, 0, 0, 0, 0, 0, 2, 0, 0, 39, 16, 0, 1, 2, 3, 4, 5, 6, 7, 8, 9, 10,
    11, 12, 13, 14, 15, 0, 0, 0, 0, 0, 0, 0, 4, 0, 0, 0, 0, 0, 0, 0, 0, 1, 0, 0, 0, 0, 0, 0, 0, 1,
    0, 0, 0, 0, 0, 0, 0, 2, 0, 0, 0, 1, 0, 0, 0, 3, 117, 58, 104, 0, 0, 0, 4, 0, 0, 0, 1, 47, 0, 0,
    0, 0, 0, 0, 0, 1, 0, 0, 0, 31, 0, 0, 0, 5, 119, 111, 114, 108, 100, 0, 0, 0, 6, 97, 110, 121,
    111, 110, 101, 0, 0, 0, 0, 0, 0, 0, 0, 0, 0, 0, 0, 0, 0, 0, 0, 0, 0, 0, 0, 0, 0, 0, 3, 0, 0, 0,
    0, 0, 0, 0, 0, 0, 0, 0, 0, 0, 0, 0, 0, 0, 0, 0, 0, 0, 0, 0, 2, 0, 0, 0, 0, 0, 0, 0, 0, 0, 0, 0,
    0, 0, 0, 0, 2, 0, 0, 0, 2, 47, 97, 0, 0, 0, 2, 1, 2, 0, 0, 0, 1, 0, 0, 0, 31, 0, 0, 0, 5, 119,
    111, 114, 108, 100, 0, 0, 0, 6, 97, 110, 121, 111, 110, 101, 0, 0, 0, 0, 0, 0, 0, 2, 0, 0, 0,
    0, 0, 0, 0, 2, 0, 0, 0, 0, 0, 0, 0, 4, 0, 0, 0, 0, 0, 0, 3, 232, 0, 0, 0, 0, 0, 0, 3, 232, 0,
    0, 0, 0, 0, 0, 0, 1, 0, 0, 0, 0, 0, 0, 0, 0, 0, 0, 0, 0, 0, 0, 0, 1, 0, 0, 0, 4, 47, 97, 47,
    98, 0, 0, 0, 0, 0, 0, 0, 1, 0, 0, 0, 1, 0, 0, 0, 6, 100, 105, 103, 101, 115, 116, 0, 0, 0, 3,
    117, 58, 104, 0, 0, 0, 0, 0, 0, 0, 4, 0, 0, 0, 0, 0, 0, 0, 4, 0, 0, 0, 0, 0, 0, 0, 4, 0, 0, 0,
    0, 0, 0, 7, 208, 0, 0, 0, 0, 0, 0, 7, 208, 0, 0, 0, 0, 0, 0, 0, 0, 0, 0, 0, 0, 0, 0, 0, 0, 0,
    0, 0, 2, 0, 0, 0, 0, 0, 0, 0, 2, 47, 99, 0, 0, 0, 0, 0, 0, 0, 0, 0, 0, 0, 0, 0, 0, 0, 3, 0, 0,
    0, 0, 0, 0, 0, 3, 0, 0, 0, 0, 0, 0, 0, 3, 0, 0, 0, 0, 0, 0, 5, 220, 0, 0, 0, 0, 0, 0, 5, 220,
    0, 0, 0, 2, 0, 0, 0, 0, 0, 0, 0, 1, 0, 0, 0, 0, 0, 0, 0, 0, 0, 0, 0, 0,
];

// What is wrong with an image into which these bytes are put at this place, and where it is refused.
struct Case {
    place: usize,
    bytes: &'static [u8],
    refused: usize,
}

const CASES: &[Case] = &[
    // another mark
    Case {
        place: 0,
        bytes: &[75, 80, 73, 50],
        refused: 0,
    },
    // an index above 2^62
    Case {
        place: 4,
        bytes: &[64, 0, 0, 0, 0, 0, 0, 1],
        refused: 4,
    },
    // a term above 2^62
    Case {
        place: 12,
        bytes: &[64, 0, 0, 0, 0, 0, 0, 1],
        refused: 12,
    },
    // a next session of 0
    Case {
        place: 20,
        bytes: &[0, 0, 0, 0, 0, 0, 0, 0],
        refused: 20,
    },
    // a session not below the next one
    Case {
        place: 20,
        bytes: &[0, 0, 0, 0, 0, 0, 0, 2],
        refused: 97,
    },
    // session 0
    Case {
        place: 32,
        bytes: &[0, 0, 0, 0, 0, 0, 0, 0],
        refused: 32,
    },
    // sessions out of order
    Case {
        place: 97,
        bytes: &[0, 0, 0, 0, 0, 0, 0, 1],
        refused: 97,
    },
    // a timeout of 9,999
    Case {
        place: 40,
        bytes: &[0, 0, 39, 15],
        refused: 40,
    },
    // a timeout of 100,001
    Case {
        place: 105,
        bytes: &[0, 1, 134, 161],
        refused: 105,
    },
    // an epoch above 2^62
    Case {
        place: 60,
        bytes: &[64, 0, 0, 0, 0, 0, 0, 1],
        refused: 60,
    },
    // a running number above 2^62
    Case {
        place: 133,
        bytes: &[64, 0, 0, 0, 0, 0, 0, 1],
        refused: 133,
    },
    // a holder that occurs twice
    Case {
        place: 141,
        bytes: &[1, 0, 0, 0, 0, 0, 0, 0, 1, 0, 0, 0, 0, 0, 0, 0, 1],
        refused: 141,
    },
    // an id longer than the rest
    Case {
        place: 162,
        bytes: &[0, 0, 16, 0],
        refused: 162,
    },
    // an id that is not text
    Case {
        place: 162,
        bytes: &[0, 0, 0, 3, 255, 58, 104],
        refused: 162,
    },
    // no nodes
    Case {
        place: 169,
        bytes: &[0, 0, 0, 0],
        refused: 169,
    },
    // a first path that is not the root
    Case {
        place: 173,
        bytes: &[0, 0, 0, 1, 97],
        refused: 173,
    },
    // a root with an owner
    Case {
        place: 261,
        bytes: &[0, 0, 0, 0, 0, 0, 0, 1],
        refused: 261,
    },
    // a path that is not well formed
    Case {
        place: 273,
        bytes: &[0, 0, 0, 2, 47, 46],
        refused: 273,
    },
    // a path that is there already
    Case {
        place: 477,
        bytes: &[0, 0, 0, 2, 47, 97],
        refused: 477,
    },
    // paths out of order
    Case {
        place: 477,
        bytes: &[0, 0, 0, 2, 47, 65],
        refused: 477,
    },
    // a parent that is not there
    Case {
        place: 376,
        bytes: &[0, 0, 0, 4, 47, 98, 47, 98],
        refused: 376,
    },
    // a parent that has an owner
    Case {
        place: 364,
        bytes: &[0, 0, 0, 0, 0, 0, 0, 1],
        refused: 376,
    },
    // an owner that is no session
    Case {
        place: 465,
        bytes: &[0, 0, 0, 0, 0, 0, 0, 3],
        refused: 465,
    },
    // a right of 32
    Case {
        place: 392,
        bytes: &[0, 0, 0, 32],
        refused: 392,
    },
    // a czxid above the index
    Case {
        place: 312,
        bytes: &[0, 0, 0, 0, 0, 0, 0, 6],
        refused: 312,
    },
    // an mzxid above the index
    Case {
        place: 421,
        bytes: &[0, 0, 0, 0, 0, 0, 0, 6],
        refused: 421,
    },
    // a pzxid above the index
    Case {
        place: 507,
        bytes: &[0, 0, 0, 0, 0, 0, 0, 6],
        refused: 507,
    },
    // a ctime above 2^62
    Case {
        place: 336,
        bytes: &[64, 0, 0, 0, 0, 0, 0, 1],
        refused: 336,
    },
    // an mtime above 2^62
    Case {
        place: 344,
        bytes: &[64, 0, 0, 0, 0, 0, 0, 1],
        refused: 344,
    },
    // a version above 2^31 - 1
    Case {
        place: 531,
        bytes: &[128, 0, 0, 0],
        refused: 531,
    },
    // a cversion above 2^31 - 1
    Case {
        place: 253,
        bytes: &[128, 0, 0, 0],
        refused: 253,
    },
    // an aversion above 2^31 - 1
    Case {
        place: 539,
        bytes: &[128, 0, 0, 0],
        refused: 539,
    },
    // 2^31 children ever made
    Case {
        place: 269,
        bytes: &[128, 0, 0, 0],
        refused: 269,
    },
    // more nodes than there are
    Case {
        place: 169,
        bytes: &[0, 0, 0, 5],
        refused: 555,
    },
    // a byte behind the image
    Case {
        place: 169,
        bytes: &[0, 0, 0, 3],
        refused: 477,
    },
];

// Where the bytes are refused, or None where they aren't.
fn refusal(alloc: Global, bytes: &[u8]) -> Option<usize> {
    match read(alloc, bytes) {
        Err(ImageFail::Damaged { at }) => Some(at),
        Err(ImageFail::NoMemory) => None,
        Ok(image) => {
            drop(image);
            None
        }
    }
}

// Whether the image with these bytes in it is refused where it should be.
fn is_refused(alloc: Global, case: &Case) -> Result<bool, NoMemory> {
    let mut bytes = Vec::from_slice(alloc, IMAGE)?;
    for (at, byte) in case.bytes.iter().enumerate() {
        if let Some(place) = bytes.get_mut(case.place.saturating_add(at)) {
            *place = *byte;
        }
    }
    Ok(refusal(alloc, &bytes) == Some(case.refused))
}

#[test]
fn an_image_is_refused_at_the_field_that_breaks_a_rule(rt: HostRuntime) -> Result<(), NoMemory> {
    for case in CASES {
        let told = is_refused(rt.alloc(), case)?;
        assert!(rt; told);
    }
    Ok(())
}

#[test]
fn an_image_is_read_and_copied(rt: HostRuntime) -> Result<(), NoMemory> {
    let Ok(image) = read(rt.alloc(), IMAGE) else {
        return Err(NoMemory);
    };
    assert!(rt; image.index() == 5);
    assert!(rt; image.term() == 3);
    let copy = image.copy(rt.alloc())?;
    drop(image);
    let same = copy.as_slice() == IMAGE;
    drop(copy);
    assert!(rt; same);
    Ok(())
}
