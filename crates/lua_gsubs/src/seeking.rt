//! The next match of a job, for which a table or a function is asked.
ghost use Rattle.std.specs.Prelude.{◌≡◌, ◌≤◌, ℕ, length, IfOk, OnOk};
ghost use Rattle.lua_replacing.specs.LuaStringWalk.{walk};
ghost use Rattle.lua_replacing.specs.LuaMeaningGsub as meaning;
ghost use Rattle.lua_replacing.specs.LuaStoreParts.{IsLater};
ghost use Rattle.lua_replacing.specs.LuaStoreSeen.{text_at};
ghost use Rattle.lua_replacing.specs.Seen.{alphabet_in, anchored_in, items_in, slots_in, stand_seen, job_seen, far_seen, StandWithin, JobOf};
ghost use Rattle.lua_gsubs.specs.Met.{PlaceWithin};
ghost use Rattle.lua_gsubs.specs.Sought.{IsHeld, IsWalked, IsSought, SoughtOf};

use crate::meeting::{Met, meet, next_stand};
use lua_iterators::captures::match_values;
use lua_iterators::{Left, Stop, Store, pay, span};
use lua_number::NoMemory;
use lua_pattern::{Alphabet, List, Match, OneByte, OnePoint, Pattern};
use lua_replacing::{AnyPattern, Far, Job, Stand, Value};
use mw_text::push_all;
use std::alloc::Global;

/// What a search for the next match came to.
#[derive(Drop)]
pub enum Sought {
    NoMatch,
    /// The captures of a match, or the whole of it where there are none, and where it begins and ends.
    Matched(List<Value>, usize, usize),
}

/// A match is held: what stands before it, which is paid for already, is put behind the text, and the search goes on behind it.
fn hold_match<A: Alphabet>(
    alloc: Global,
    store: &mut Store,
    s: &[u8],
    far: &mut Far,
    stand: Stand,
    found: &Match,
    next: Option<usize>,
) -> Result<Sought, NoMemory>
    requires { PlaceWithin (length s.now) next }
    ensures holds_match { IfOk result (IsHeld A.letters s.now (stand_seen stand) found.now next
        store.new far.old far.new) }
    ensures of { IfOk result (SoughtOf store.new) }
    ensures within { OnOk result (StandWithin (length s.now) far.new.next) }
    ensures heap { store.new.heap ≡ store.old.heap }
    ensures later { IsLater store.old store.new }
{
    let next = next_stand::<A>(s, stand, next)?;
    let values = match_values::<A>(alloc, store, s, stand.at, stand.before, found)?;
    push_all(&mut far.text, span(s, far.copied, found.start))?;
    far.copied = found.end;
    far.next = next;
    Ok(Sought::Matched(values, found.start, found.end))
}

/// The next match from a place on, for its tries and the bytes that stand before it.
fn seek_from<A: Alphabet>(
    alloc: Global,
    store: &mut Store,
    left: &mut Left,
    pattern: &Pattern<A>,
    s: &[u8],
    far: &mut Far,
    stand: Stand,
) -> Result<Sought, Stop>
    requires { stand.at ≤ length s.now }
    ensures walked { IsWalked A.letters s.now (stand_seen stand) pattern.now.slots
        (walk A.letters pattern.now.anchored pattern.now.items s.now stand.at) store.old
        store.new far.old far.new left.old left.new result }
    ensures of { IfOk result (SoughtOf store.new) }
    ensures within { OnOk result (StandWithin (length s.now) far.old.next
        → StandWithin (length s.now) far.new.next) }
    ensures heap { store.new.heap ≡ store.old.heap }
    ensures later { IsLater store.old store.new }
{
    match meet::<A>(alloc, left, pattern, s, stand.at) {
        Err(stop) => Err(stop),
        Ok(Met::Nothing) => Ok(Sought::NoMatch),
        Ok(Met::Found(found, next)) => {
            let between = span(s, far.copied, found.start);
            pay(left, between.len() as u64)?;
            let sought = hold_match::<A>(alloc, store, s, far, stand, &found, next)?;
            Ok(sought)
        }
    }
}

/// The next match of a job. Its tries are paid for, and the bytes up to it, to which the text is put together.
pub fn seek(
    alloc: Global,
    store: &mut Store,
    left: &mut Left,
    job: &Job,
    far: &mut Far,
) -> Result<Sought, Stop>
    requires job { JobOf store.old job.now }
    requires within { StandWithin (length (text_at store.old.texts job.now.subject.at))
        far.old.next }
    ensures sought { (limit : ℕ)
        → IsSought (meaning.search (job_seen store.old.texts job.now) limit (far_seen far.old))
        (text_at store.old.texts job.now.subject.at) store.old
        store.new far.old far.new left.old left.new result }
    ensures of { IfOk result (SoughtOf store.new) }
    ensures within { OnOk result (StandWithin (length (text_at store.old.texts job.now.subject.at))
        far.new.next) }
    ensures heap { store.new.heap ≡ store.old.heap }
    ensures later { IsLater store.old store.new }
{
    match far.next {
        None => Ok(Sought::NoMatch),
        Some(stand) => {
            let s = store.bytes(job.subject);
            match &job.pattern {
                AnyPattern::Bytes(pattern) => {
                    seek_from::<OneByte>(alloc, store, left, pattern, s, far, stand)
                }
                AnyPattern::Points(pattern) => {
                    seek_from::<OnePoint>(alloc, store, left, pattern, s, far, stand)
                }
            }
        }
    }
}
