// Numbers of 32 bits in groups of seven.
ghost use Rattle.std.specs.Prelude.{◌≡◌, ◌+◌, ◌≤◌, length, drop, IfOk};
ghost use Rattle.trace.specs.Meanings.{found_at};
ghost use Rattle.trace_bytes.specs.Groups.{number};

use trace::fault::{Cause, Fault};

// How many bytes follow the first byte of a number at the most.
const MOST_MORE: usize = 4;

// The last of so many bytes has the upper four bits of the largest number.
const LARGEST_LAST: u8 = 15;

// A byte that another follows has so much added to its group.
const FOLLOWED: u8 = 128;

// The number that begins at `at`, and how many bytes it took. A fault is that of the record at `place`.
fn read_groups(bytes: &[u8], at: usize, place: usize) -> Result<(u32, usize), Fault>
    ensures value { result ≡ found_at (number (drop at bytes.now)) place }
    ensures within { IfOk result (λ v. at + v.1 ≤ length bytes.now) }
{
    // the value of the groups read so far, and how many values so many groups have
    let mut low: u32 = 0;
    let mut scale: u32 = 1;
    for taken in 0..MOST_MORE {
        let next = at + taken;
        let Some(&byte) = bytes.get(next) else {
            return Err(Cause::CutShort.at(place));
        };
        if byte < FOLLOWED {
            return Ok((low + scale * u32::from(byte), taken + 1));
        }
        low += scale * u32::from(byte - FOLLOWED);
        scale *= 128;
    }
    let next = at + MOST_MORE;
    let Some(&byte) = bytes.get(next) else {
        return Err(Cause::CutShort.at(place));
    };
    if byte > LARGEST_LAST {
        return Err(Cause::TooLarge.at(place));
    }
    Ok((low + scale * u32::from(byte), MOST_MORE + 1))
}

// The number that begins at `at`, and how many bytes it took. A fault is that of the record at `place`. Most numbers have one byte, and
// these are read without a loop.
pub fn read_number(bytes: &[u8], at: usize, place: usize) -> Result<(u32, usize), Fault>
    ensures value { result ≡ found_at (number (drop at bytes.now)) place }
    ensures within { IfOk result (λ v. at + v.1 ≤ length bytes.now) }
{
    match bytes.get(at) {
        Some(&byte) if byte < FOLLOWED => Ok((u32::from(byte), 1)),
        _ => read_groups(bytes, at, place),
    }
}
