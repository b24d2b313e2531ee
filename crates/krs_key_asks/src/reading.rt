ghost use Rattle.std.specs.Prelude.{[], ◌++◌, ◌<◌, ◌∷◌, ◌≡◌, decimal, IfOk};
ghost use Rattle.krs_types.specs.Kind.{kind_name};
ghost use Rattle.krs_model.specs.{Asks.Reading.{describe, description, hex_8, hex_digit, read}, Outcome.Leads};
ghost use Rattle.krs_keys.specs.Keys.{seen};
ghost use Rattle.krs_key_asks.specs.Taking.{answered, taken_of};

use crate::{Given, Taker};
use krs_keys::{Content, Key};
use krs_tables::Tables;
use krs_types::{Answer, Body, Errno, Fault, Kind, Rights, Told, Want};
use std::alloc::{AllocError, Global};
use std::fmt::Write;
use std::snapshot::Snapshot;

/// The longest of what stands before a description: a type of 7 letters, two ids of 10 digits, a mask of 8, each with
/// its semicolon.
const LONGEST_HEAD: usize = 39;

/// The payload of a key, or what a keyring links: keyctl(2), KEYCTL_READ.
#[tactic(auto, unfolding(krs_model::specs::Asks::Reading::read))]
pub fn read(tables: &Tables, client: u32, context: u32, id: i32) -> Result<Answer, Fault>
    ensures { Leads tables.now result tables.now (read tables.now client context id) }
{
    let context = tables.context_of(client, context)?;
    let (_, key) = tables.look_up(context, id, Want::ToRead)?;
    match (key.name.kind().told(), &key.content) {
        (Told::ItsPayload, Content::Payload(bytes)) => Ok(Answer::Bytes(bytes.copy(tables.alloc)?)),
        (Told::ItsLinks, Content::Links(links)) => {
            Ok(Answer::Bytes(Body::new(links.serial_bytes(tables.alloc)?)))
        }
        _ => Err(Fault::Refused(Errno::EOPNOTSUPP)),
    }
}

/// As `read`, but a taker may have the payload of a key where it lies.
#[tactic(auto, unfolding(krs_model::specs::Asks::Reading::read))]
pub fn read_into<T: Taker>(
    tables: &Tables,
    client: u32,
    context: u32,
    id: i32,
    taker: &mut T,
) -> Result<Given, Fault>
    ensures told { Leads tables.now (answered result) tables.now (read tables.now client context id) }
    ensures taken { T.took taker.old (taken_of result) taker.new }
{
    let context = tables.context_of(client, context)?;
    let (_, key) = tables.look_up(context, id, Want::ToRead)?;
    match (key.name.kind().told(), &key.content) {
        (Told::ItsPayload, Content::Payload(bytes)) => {
            if taker.take(bytes.as_slice()) {
                return Ok(Given::Taken(Snapshot::of(bytes)));
            }
            Ok(Given::Answer(Answer::Bytes(bytes.copy(tables.alloc)?)))
        }
        (Told::ItsLinks, Content::Links(links)) => {
            let bytes = links.serial_bytes(tables.alloc)?;
            Ok(Given::Answer(Answer::Bytes(Body::new(bytes))))
        }
        _ => Err(Fault::Refused(Errno::EOPNOTSUPP)),
    }
}

/// A key as text: keyctl(2), KEYCTL_DESCRIBE.
#[tactic(auto, unfolding(krs_model::specs::Asks::Reading::describe))]
pub fn describe(tables: &Tables, client: u32, context: u32, id: i32) -> Result<Answer, Fault>
    ensures { Leads tables.now result tables.now (describe tables.now client context id) }
{
    let context = tables.context_of(client, context)?;
    let (_, key) = tables.look_up(context, id, Want::Granted(Rights::VIEW))?;
    Ok(Answer::Bytes(description(tables.alloc, key)?))
}

/// Type, uid, gid, mask and description, with ';' between them.
fn description(alloc: Global, key: &Key) -> Result<Body, AllocError>
    ensures { IfOk result (λ b. b ≡ description (seen key.now)) }
{
    let desc = key.name.desc();
    let (kind, uid, gid) = (key.name.kind(), key.uid, key.gid);
    let mut bytes = owners(alloc, desc.len(), kind, uid, gid)?;
    bytes.extend_from_slice(&hex_8(key.perm.bits()))?;
    bytes.push(b';')?;
    bytes.extend_from_slice(desc)?;
    Ok(Body::new(bytes))
}

/// Type, uid and gid, each with ';' behind it, in a list with room for the mask and a description of that length.
fn owners(alloc: Global, desc: usize, kind: Kind, uid: u32, gid: u32) -> Result<Vec<u8>, AllocError>
    ensures { IfOk result (λ bytes. bytes.items
        ≡ kind_name kind ++ (59 ∷ (decimal uid ++ (59 ∷ (decimal gid ++ (59 ∷ [])))))) }
{
    let kind = kind.name();
    let mut text = String::with_capacity(alloc, desc.saturating_add(LONGEST_HEAD))?;
    write!(text, "{kind};{uid};{gid};")?;
    Ok(text.into_bytes())
}

/// Eight hexadecimal digits, the highest first.
fn hex_8(n: u32) -> [u8; 8]
    ensures { result ≡ hex_8 n }
{
    [
        hex_digit(n / 0x1000_0000 % 16),
        hex_digit(n / 0x100_0000 % 16),
        hex_digit(n / 0x10_0000 % 16),
        hex_digit(n / 0x1_0000 % 16),
        hex_digit(n / 0x1000 % 16),
        hex_digit(n / 0x100 % 16),
        hex_digit(n / 0x10 % 16),
        hex_digit(n % 16),
    ]
}

fn hex_digit(n: u32) -> u8
    requires { n < 16 }
    ensures { result ≡ hex_digit n }
{
    let n = n as u8;
    if n < 10 { n + b'0' } else { n + (b'a' - 10) }
}
