//! Runs that agree, and watches over short runs.

use rv_event::{End, Event, EventKind, Events, Transcript};
use std::alloc::{AllocError, Global};
use std::test::Fail;
use watchers::{Covered, CoveredStep, LastSixteen, LastStep, Watch};

/// An event at this program counter.
fn event(pc: u32, word: u32, kind: EventKind) -> Event {
    Event {
        pc,
        word,
        addr: 0,
        call: [0; 4],
        kind,
    }
}

/// An exit's event, with this code.
fn exit(code: u32) -> Event {
    Event {
        pc: 0x10004,
        word: 0x73,
        addr: 0,
        call: [93, code, 0, 0],
        kind: EventKind::Call,
    }
}

/// A run of one instruction and an exit on an input of three bytes.
fn run_of(alloc: Global, word: u32, code: u32, end: End) -> Result<Transcript, AllocError> {
    let mut events = Events::new(alloc);
    events.push(event(0x10000, word, EventKind::Plain))?;
    events.push(exit(code))?;
    Ok(Transcript { n: 3, events, end })
}

/// The last of a run's events.
fn last(events: &Events) -> Option<Event> {
    let count = events.len();
    if count == 0 {
        return None;
    }
    Some(events.event(count - 1))
}

#[test]
fn runs_agree_by_all_their_parts(rt: HostRuntime) -> Result<(), Fail> {
    let first = run_of(rt.alloc(), 0x13, 7, End::Exit(7))?;
    let same = run_of(rt.alloc(), 0x13, 7, End::Exit(7))?;
    let other_word = run_of(rt.alloc(), 0x93, 7, End::Exit(7))?;
    let other_code = run_of(rt.alloc(), 0x13, 8, End::Exit(7))?;
    let other_end = run_of(rt.alloc(), 0x13, 7, End::Limit)?;
    assert!(rt; first.agrees(&same) && last(&first.events) == Some(exit(7)));
    assert!(rt;
        !first.agrees(&other_word) && !first.agrees(&other_code) && !first.agrees(&other_end)
    );
    Ok(())
}

/// Events of which nothing could be fetched, at these program counters.
fn unfetched(alloc: Global, counters: &[u32]) -> Result<Vec<Event>, AllocError> {
    let mut events = Vec::new(alloc);
    for pc in counters {
        events.push(event(*pc, 0, EventKind::NoFetch))?;
    }
    Ok(events)
}

#[test]
fn counters_are_counted_once(rt: HostRuntime) -> Result<(), Fail> {
    let watch = Watch::new(Covered::new(rt.alloc()), CoveredStep);
    let before = watch.state().count();
    let events = unfetched(rt.alloc(), &[4, 8, 4, 12, 8, 16])?;
    let watch = watch.feed_all(&events)?;
    assert!(rt; (before, watch.state().count()) == (0, 4));
    Ok(())
}

/// The counters of a run: sixteen, and two more.
const COUNTERS: [u32; 18] = [0, 1, 2, 3, 4, 5, 6, 7, 8, 9, 10, 11, 12, 13, 14, 15, 3, 99];

#[test]
fn the_last_sixteen_are_kept(rt: HostRuntime) -> Result<(), Fail> {
    let mut watch = Watch::new(LastSixteen::new(), LastStep);
    let mut are_first = true;
    for (place, pc) in COUNTERS.iter().enumerate() {
        if place == 16 {
            are_first = watch.state().list() == &COUNTERS[..16];
        }
        watch = watch.feed(event(*pc, 0, EventKind::NoFetch))?;
    }
    assert!(rt; are_first && watch.state().list() == &COUNTERS[2..]);
    Ok(())
}
