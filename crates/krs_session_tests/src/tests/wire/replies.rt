//! Replies to LEAVE: refusals, and bytes with a fault.
use super::{NOTHING, is_fault, is_reply, is_tagged_fault};
use krs_store_asks::{Want, leave};
use krs_types::Errno;
use krs_wire::WireFault;
use std::test::Fail;

const REPLIES: [(Want<'static>, &[u8]); 3] = [
    (Want::Nothing, &NOTHING),
    (Want::Refused(Errno::ENOKEY), &[4, 0, 0, 0, 126, 0, 0, 0]),
    (Want::Refused(Errno::EEXIST), &[4, 0, 0, 0, 17, 0, 0, 0]),
];

#[rattlefmt::skip]
const FAULTS: [(&[u8], WireFault); 5] = [
    (&[3, 0, 0, 0], WireFault::BadLength),
    (&[1, 0, 4, 0], WireFault::BadLength),
    (&[4, 0, 0, 0, 4, 0, 0, 0], WireFault::BadBody),
    (&[5, 0, 0, 0, 0, 0, 0, 0, 1], WireFault::BadBody),
    (&[5, 0, 0, 0, 126, 0, 0, 0, 1], WireFault::BadBody),
];

// Of version 2: lengths below 12 and above 262152, and bodies as before.
#[rattlefmt::skip]
const TAGGED_FAULTS: [(&[u8], WireFault); 6] = [
    (&[11, 0, 0, 0], WireFault::BadLength),
    (&[4, 0, 0, 0, 0, 0, 0, 0], WireFault::BadLength),
    (&[9, 0, 4, 0], WireFault::BadLength),
    (&[12, 0, 0, 0, 4, 0, 0, 0, 7, 0, 0, 0, 0, 0, 0, 0], WireFault::BadBody),
    (&[13, 0, 0, 0, 0, 0, 0, 0, 7, 0, 0, 0, 0, 0, 0, 0, 1], WireFault::BadBody),
    (&[13, 0, 0, 0, 126, 0, 0, 0, 7, 0, 0, 0, 0, 0, 0, 0, 1], WireFault::BadBody),
];

#[test]
fn refusals_have_their_numbers(rt: HostRuntime) -> Result<(), Fail> {
    for (want, frame) in &REPLIES {
        assert!(rt;
            is_reply(rt.alloc(), &leave().op, *want, frame)?,
            "{frame:?}"
        );
    }
    Ok(())
}

#[test]
fn faults_of_replies_are_told(rt: HostRuntime) {
    for (bytes, fault) in &FAULTS {
        assert!(rt;
            is_fault(rt.alloc(), &leave().op, bytes, *fault),
            "{bytes:?}"
        );
    }
    for (bytes, fault) in &TAGGED_FAULTS {
        assert!(rt;
            is_tagged_fault(rt.alloc(), &leave().op, bytes, *fault),
            "{bytes:?}"
        );
    }
}
