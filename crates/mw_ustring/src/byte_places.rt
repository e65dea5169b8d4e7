//! Bytes at which code points begin (Scribunto, Ustring library, `mw.ustring.byteoffset`).
ghost use Rattle.std.specs.Prelude.{◌≡◌, ◌<◌, ◌≤◌, ◌+◌, length, take, drop, reverse as reverse_lem, slice_get, IfSome};
ghost use Rattle.lua_string.specs.LuaPatternTexts.{goes_on as goes_on_lem};
ghost use Rattle.mw_ustring.specs.Texts.{begun, byte_at as byte_at_lem, byteoffset_of};

/// Whether a code point goes on with a byte.
fn goes_on(byte: u8) -> bool
    ensures { result ≡ goes_on_lem byte }
{
    128 <= byte && byte <= 191
}

/// The byte that a place of Lua names, from 0, in a text of `len` bytes.
fn byte_at(len: usize, place: i64) -> Option<usize>
    ensures byte { result ≡ byte_at_lem len place }
    ensures within { IfSome result (λ at. at < len) }
{
    let distance = place.unsigned_abs();
    if distance == 0 || (len as u64) < distance {
        return None;
    }
    if place < 0 {
        return Some(len - distance as usize);
    }
    Some(distance as usize - 1)
}

/// Of the code points that begin at a byte or behind it, the one with this number, from 0.
fn begun_from(s: &[u8], at: usize, number: u64) -> Option<usize>
    requires { at ≤ length s.now }
    ensures place { result ≡ slice_get (begun at (drop at s.now)) number }
    ensures within { IfSome result (λ place. place < length s.now) }
{
    let mut left = number;
    let mut place = at;
    let mut rest = &s[at..];
    'bytes: while let [byte, behind @ ..] = rest {
        if !goes_on(*byte) {
            if left == 0 {
                return Some(place);
            }
            left -= 1;
        }
        place += 1;
        rest = behind;
    }
    None
}

/// Of the code points that begin at a byte or before it, the one with this number, from 0, the last one first.
#[tactic(auto, using(crate::proofs::Begun::back_first, crate::proofs::Begun::back_next, crate::proofs::Begun::back_later))]
fn begun_before(s: &[u8], at: usize, number: u64) -> Option<usize>
    requires { at < length s.now }
    ensures place { result ≡ slice_get (reverse_lem (begun 0 (take (at + 1) s.now))) number }
    ensures within { IfSome result (λ place. place < length s.now) }
{
    let mut left = number;
    let mut front = &s[..at + 1];
    'bytes: while let Some((byte, before)) = front.split_last() {
        if !goes_on(*byte) {
            if left == 0 {
                return Some(before.len());
            }
            left -= 1;
        }
        front = before;
    }
    None
}

/// `mw.ustring.byteoffset(s, l, i)`: the byte, from 1, at which code point `l` begins, counted from byte `i`: 1 is the first
/// that begins there or behind, 0 the last that begins there or before. None where there is no such byte.
pub fn byteoffset(s: &[u8], l: i64, i: i64) -> Option<usize>
    ensures { result ≡ byteoffset_of s.now l i }
{
    let at = byte_at(s.len(), i)?;
    let number = l.unsigned_abs();
    let place = if 0 < l {
        begun_from(s, at, number - 1)
    } else {
        begun_before(s, at, number)
    };
    place.map(|place| place + 1)
}
