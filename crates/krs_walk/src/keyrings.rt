ghost use Rattle.std.specs.Prelude.{◌≡◌};
ghost use Rattle.krs_model.specs.Reach.{nested_in};
ghost use Rattle.krs_links.specs.Links.{nested, serials};
ghost use Rattle.krs_keys.specs.Keys.{AreFit, named_links_of_content, shown};

use krs_keys::{Content, KeyTable};
use krs_types::Serial;

/// The nested keyrings of a key.
pub(crate) fn rings_of(keys: &KeyTable, serial: Serial) -> &[Serial]
    requires { AreFit keys.now.keys }
    ensures { result.now ≡ nested_in (shown keys.now.keys) serial }
{
    match keys.get(serial) {
        Some(key) => rings_in(&key.content),
        None => &[],
    }
}

/// The nested keyrings among these links.
pub(crate) fn rings_in(content: &Content) -> &[Serial]
    ensures { result.now ≡ serials (nested (named_links_of_content content.now)) }
{
    match content {
        Content::Payload(_) => &[],
        Content::Links(links) => links.rings(),
    }
}
