ghost use Rattle.std.specs.Prelude.{◌≡◌};
ghost use Rattle.krs_script.specs.Listing.{is_keyring, listing, records_of};

use krs_types::{Answer, Body, Reply};
use krs_words::Output;

/// What the bytes of a key are shown as, by the reply to DESCRIBE of it.
pub fn listing(bytes: Body, described: &Reply) -> Output
    ensures { result ≡ listing bytes described.now }
{
    if is_keyring(described) && bytes.as_slice().len() % 4 == 0 {
        Output::Serials(bytes)
    } else {
        Output::Reply(Ok(Answer::Bytes(bytes)))
    }
}

fn is_keyring(described: &Reply) -> bool
    ensures { result ≡ is_keyring described.now }
{
    match described {
        Ok(Answer::Bytes(text)) => text.as_slice().starts_with(b"keyring;"),
        _ => false,
    }
}

/// What a READ_QUEUE comes to.
pub fn records(reply: Reply) -> Output
    ensures { result ≡ records_of reply }
{
    match reply {
        Ok(Answer::Bytes(bytes)) => Output::Records(bytes),
        Ok(answer) => Output::Reply(Ok(answer)),
        Err(error) => Output::Reply(Err(error)),
    }
}
