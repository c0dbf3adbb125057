// The arguments: a folder, a prefix, and the range that is asked for: two numbers, or none.
// A number is decimal digits and nothing else, and 64 bits hold it.
use std::env::{Env, FillError};
use walk::Range;

// What the program is asked for: the folder's path, the prefix of the log's names, and the range, if there is one.
#[derive(Clone, Copy)]
pub(crate) struct Asked<'a> {
    pub(crate) path: &'a [u8],
    pub(crate) prefix: &'a [u8],
    pub(crate) range: Option<Range>,
}

// The arguments are not as the usage says.
#[derive(Clone, Copy, Debug)]
pub(crate) struct Misused;

// Argument i over the front of the room. An empty one counts as none, and so does one that is longer than the room.
fn argument<'a>(env: &impl Env, i: usize, room: &'a mut [u8]) -> Result<&'a [u8], Misused> {
    match env.arg(i, &mut *room) {
        Ok(n) if 0 < n => Ok(&room[..n]),
        _ => Err(Misused),
    }
}

// How many arguments the program was started with, its own name among them.
fn argument_count(env: &impl Env) -> usize {
    let mut byte = [0u8; 1];
    for i in 0..usize::MAX {
        if let Err(FillError::NotPresent) = env.arg(i, &mut byte) {
            return i;
        }
    }
    usize::MAX
}

// The number that decimal digits spell, and nothing else: no sign.
fn decimal(digits: &[u8]) -> Option<u64> {
    if !digits.iter().all(|byte| byte.is_ascii_digit()) {
        return None;
    }
    str::from_utf8(digits).ok()?.parse::<u64>().ok()
}

// Argument i as a number.
fn number(env: &impl Env, i: usize) -> Result<u64, Misused> {
    let mut room = [0u8; 32];
    decimal(argument(env, i, &mut room)?).ok_or(Misused)
}

// The range of arguments 3 and 4, which are given both or not at all, and are the last.
fn asked_range(env: &impl Env) -> Result<Option<Range>, Misused> {
    match argument_count(env) {
        3 => Ok(None),
        5 => Ok(Some(Range {
            s: number(env, 3)?,
            e: number(env, 4)?,
        })),
        _ => Err(Misused),
    }
}

// The arguments, the first two of them over the room lent.
pub(crate) fn all<'a>(
    env: &impl Env,
    path: &'a mut [u8],
    prefix: &'a mut [u8],
) -> Result<Asked<'a>, Misused> {
    Ok(Asked {
        path: argument(env, 1, path)?,
        prefix: argument(env, 2, prefix)?,
        range: asked_range(env)?,
    })
}
