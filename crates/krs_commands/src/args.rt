//! One word behind a command's first, or two.

ghost use Rattle.std.specs.Prelude.{map};
ghost use Rattle.krs_words.specs.{Number.{key_of, u32_of}, Parsed.Reads};
ghost use Rattle.krs_commands.specs.Command.{one_of, two_of};

use krs_words::{NoCommand, key_word, u32_word};

/// One word, which names a key.
pub(crate) fn one_key(args: &[&[u8]]) -> Result<i32, NoCommand>
    ensures { Reads result (one_of key_of (map (λ w. w.now) args.now)) }
{
    let [key] = args else {
        return Err(NoCommand::Usage);
    };
    key_word(key).ok_or(NoCommand::Usage)
}

/// One word, which is a number.
pub(crate) fn one_number(args: &[&[u8]]) -> Result<u32, NoCommand>
    ensures { Reads result (one_of u32_of (map (λ w. w.now) args.now)) }
{
    let [number] = args else {
        return Err(NoCommand::Usage);
    };
    u32_word(number).ok_or(NoCommand::Usage)
}

/// A key and a number.
pub(crate) fn key_and_number(args: &[&[u8]]) -> Result<(i32, u32), NoCommand>
    ensures { Reads result (two_of key_of u32_of (map (λ w. w.now) args.now)) }
{
    let [key, number] = args else {
        return Err(NoCommand::Usage);
    };
    let key = key_word(key).ok_or(NoCommand::Usage)?;
    Ok((key, u32_word(number).ok_or(NoCommand::Usage)?))
}

/// A key, and a keyring.
pub(crate) fn key_and_ring(args: &[&[u8]]) -> Result<(i32, i32), NoCommand>
    ensures { Reads result (two_of key_of key_of (map (λ w. w.now) args.now)) }
{
    let [key, ring] = args else {
        return Err(NoCommand::Usage);
    };
    let key = key_word(key).ok_or(NoCommand::Usage)?;
    Ok((key, key_word(ring).ok_or(NoCommand::Usage)?))
}
