ghost use Rattle.std.specs.Prelude.{◌≡◌, IfSome, length, Some};
ghost use Rattle.krs_types.specs.declared.note.Record.{Record};
ghost use Rattle.krs_model.specs.{Lists.Begins, Notes.Bytes.{bytes_of, Fits, size_of}};
ghost use Rattle.krs_notes.specs.Guess.{guess};

use crate::subtype::{event_number, event_numbered};
use krs_types::{KeyEvent, Record};
use std::marker::Model;

/// The bytes of a record, 8 or 16 of them. A contract sees the list.
#[derive(Drop)]
pub struct RecordBytes {
    bytes: [u8; 16],
    len: usize,
}

impl Model for RecordBytes {
    ghost use Rattle.std.specs.Prelude.{◌≤◌, List, take, ℕ};

    ghost Value = { List ℕ };

    ghost view = { λ r. take r.len r.bytes };

    ghost invariant = { λ r. r.len ≤ 16 };
}

impl RecordBytes {
    pub fn as_slice(&self) -> &[u8]
        ensures { result.now ≡ self.now }
    {
        &self.bytes[..self.len]
    }
}

/// The bytes of a record, as a reader of its queue gets them.
pub fn encode(note: &Record) -> RecordBytes
    ensures { result ≡ bytes_of note.now }
{
    match *note {
        Record::Key {
            subtype,
            watch,
            key,
            aux,
        } => key_bytes(subtype, watch, key, aux),
        Record::Removal { watch, id } => removal_bytes(watch, id),
        Record::Loss => RecordBytes {
            bytes: [0, 0, 0, 1, 8, 0, 0, 0, 0, 0, 0, 0, 0, 0, 0, 0],
            len: 8,
        },
    }
}

fn key_bytes(subtype: KeyEvent, watch: u8, key: u32, aux: u32) -> RecordBytes
    ensures { result ≡ bytes_of (Record.Key subtype watch key aux) }
{
    let number = event_number(subtype);
    let [k0, k1, k2, k3] = key.to_le_bytes();
    let [a0, a1, a2, a3] = aux.to_le_bytes();
    RecordBytes {
        bytes: [
            1, 0, 0, number, 16, watch, 0, 0, k0, k1, k2, k3, a0, a1, a2, a3,
        ],
        len: 16,
    }
}

fn removal_bytes(watch: u8, id: u64) -> RecordBytes
    ensures { result ≡ bytes_of (Record.Removal watch id) }
{
    let [b0, b1, b2, b3, b4, b5, b6, b7] = id.to_le_bytes();
    RecordBytes {
        bytes: [0, 0, 0, 0, 16, watch, 0, 0, b0, b1, b2, b3, b4, b5, b6, b7],
        len: 16,
    }
}

/// The record that bytes begin with, and how many bytes it has. Where they differ from a record's in anything there is
/// none: in type, subtype, length or another bit of info, or in number.
pub fn decode(bytes: &[u8]) -> Option<(Record, usize)>
    ensures begins { IfSome result (λ x. Begins (bytes_of x.0) bytes.now × (x.1 ≡ length (bytes_of x.0))) }
    ensures each { (r : Record) → Fits r → Begins (bytes_of r) bytes.now → result ≡ Some (r, length (bytes_of r)) }
{
    let note = guess(bytes)?;
    let encoded = encode(&note);
    let own = encoded.as_slice();
    if bytes.starts_with(own) {
        Some((note, own.len()))
    } else {
        None
    }
}

/// The only record that the bytes may begin with, by their type, subtype and number.
fn guess(bytes: &[u8]) -> Option<Record>
    ensures { result ≡ guess bytes.now }
{
    if bytes.len() < 8 {
        return None;
    }
    if bytes[0] == 0 && bytes[3] == 1 {
        return Some(Record::Loss);
    }
    if bytes.len() < 16 {
        return None;
    }
    if bytes[0] == 1 {
        let subtype = event_numbered(bytes[3])?;
        let key = u32::from_le_bytes([bytes[8], bytes[9], bytes[10], bytes[11]]);
        let aux = u32::from_le_bytes([bytes[12], bytes[13], bytes[14], bytes[15]]);
        return Some(Record::Key {
            subtype,
            watch: bytes[5],
            key,
            aux,
        });
    }
    let id = u64::from_le_bytes([
        bytes[8], bytes[9], bytes[10], bytes[11], bytes[12], bytes[13], bytes[14], bytes[15],
    ]);
    Some(Record::Removal {
        watch: bytes[5],
        id,
    })
}
