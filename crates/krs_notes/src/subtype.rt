ghost use Rattle.std.specs.Prelude.{◌≡◌};
ghost use Rattle.krs_model.specs.Notes.Bytes.{event_number};
ghost use Rattle.krs_notes.specs.Guess.{event_numbered};

use krs_types::KeyEvent;

/// The subtype of a key note: uapi linux/watch_queue.h, enum key_notification_subtype.
pub(crate) fn event_number(event: KeyEvent) -> u8
    ensures { result ≡ event_number event }
{
    match event {
        KeyEvent::Instantiated => 0,
        KeyEvent::Updated => 1,
        KeyEvent::Linked => 2,
        KeyEvent::Unlinked => 3,
        KeyEvent::Cleared => 4,
        KeyEvent::Revoked => 5,
        KeyEvent::Invalidated => 6,
        KeyEvent::Setattr => 7,
    }
}

pub(crate) fn event_numbered(number: u8) -> Option<KeyEvent>
    ensures { result ≡ event_numbered number }
{
    match number {
        0 => Some(KeyEvent::Instantiated),
        1 => Some(KeyEvent::Updated),
        2 => Some(KeyEvent::Linked),
        3 => Some(KeyEvent::Unlinked),
        4 => Some(KeyEvent::Cleared),
        5 => Some(KeyEvent::Revoked),
        6 => Some(KeyEvent::Invalidated),
        7 => Some(KeyEvent::Setattr),
        _ => None,
    }
}
