use krs_notes::{KeyEvent, Record, decode, encode};

/// How many bytes there are, and these: the word of type and subtype, info, and what follows. The records and how
/// many bytes they have are those of the worked records of docs/FORMAT.md. Behind those stand bytes that begin with no
/// record.
#[rattlefmt::skip]
const BYTES: [(usize, u128, Option<(Record, usize)>); 29] = [
    (16, 0x01000001_10050000_05000000_00000000,
        Some((Record::Key { subtype: KeyEvent::Updated, watch: 5, key: 5, aux: 0 }, 16))),
    (16, 0x01000001_10ff0000_0b000000_00000000,
        Some((Record::Key { subtype: KeyEvent::Updated, watch: 255, key: 11, aux: 0 }, 16))),
    (16, 0x01000001_10000000_05000000_00000000,
        Some((Record::Key { subtype: KeyEvent::Updated, watch: 0, key: 5, aux: 0 }, 16))),
    (16, 0x01000006_10010000_06000000_00000000,
        Some((Record::Key { subtype: KeyEvent::Invalidated, watch: 1, key: 6, aux: 0 }, 16))),
    (16, 0x01000000_10010000_ffffffff_ffffffff,
        Some((Record::Key { subtype: KeyEvent::Instantiated, watch: 1, key: 0xffff_ffff, aux: 0xffff_ffff }, 16))),
    (16, 0x01000007_10090000_01020304_05060708,
        Some((Record::Key { subtype: KeyEvent::Setattr, watch: 9, key: 0x0403_0201, aux: 0x0807_0605 }, 16))),
    (16, 0x00000000_10010000_0600000000000000, Some((Record::Removal { watch: 1, id: 6 }, 16))),
    (16, 0x00000000_10070000_0600000000000000, Some((Record::Removal { watch: 7, id: 6 }, 16))),
    (16, 0x00000000_10ff0000_0b00000000000000, Some((Record::Removal { watch: 255, id: 11 }, 16))),
    (16, 0x00000000_10000000_0102030405060708,
        Some((Record::Removal { watch: 0, id: 0x0807_0605_0403_0201 }, 16))),
    (8, 0x00000001_08000000_0000000000000000, Some((Record::Loss, 8))),
    // Two losses, of which the first is read.
    (16, 0x00000001_08000000_00000001_08000000, Some((Record::Loss, 8))),
    // No bytes.
    (0, 0, None),
    // A loss, a key note and a removal that are cut short.
    (7, 0x00000001_08000000_0000000000000000, None),
    (15, 0x01000001_10050000_05000000_00000000, None),
    (15, 0x00000000_10050000_0500000000000000, None),
    // A key note of 8 bytes and one of none, a removal of 24 bytes, a loss of 16.
    (16, 0x01000001_08050000_05000000_00000000, None),
    (16, 0x01000001_00050000_05000000_00000000, None),
    (16, 0x00000000_18050000_0500000000000000, None),
    (16, 0x00000001_10000000_0000000000000000, None),
    // A loss of a watch.
    (16, 0x00000001_08010000_0000000000000000, None),
    // Key subtype 8, meta subtype 2.
    (16, 0x01000008_10050000_05000000_00000000, None),
    (16, 0x00000002_10050000_05000000_00000000, None),
    // Types 2, 0x000101 and 0x800001.
    (16, 0x02000000_10050000_05000000_00000000, None),
    (16, 0x01010001_10050000_05000000_00000000, None),
    (16, 0x01008001_10050000_05000000_00000000, None),
    // Bits 7, 16 and 31 of info.
    (16, 0x01000001_90050000_05000000_00000000, None),
    (16, 0x01000001_10050100_05000000_00000000, None),
    (16, 0x00000000_10050080_0500000000000000, None),
];

/// Whether bytes begin with this record and are spelled so, or begin with none.
fn begin_with(bytes: &[u8], record: &Option<(Record, usize)>) -> bool {
    if decode(bytes) != *record {
        return false;
    }
    match record {
        Some((note, len)) => {
            let spelled = encode(note);
            spelled.as_slice().len() == *len && bytes.starts_with(spelled.as_slice())
        }
        None => true,
    }
}

#[test]
fn records_are_spelled_as_in_the_header(rt: HostRuntime) {
    for (len, digits, record) in &BYTES {
        let all = digits.to_be_bytes();
        assert!(rt; *len <= 16);
        assert!(rt; begin_with(&all[..*len], record), "of {digits:x}");
    }
}
