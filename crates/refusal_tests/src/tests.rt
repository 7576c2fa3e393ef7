//! Each growing call that is refused memory is followed by the questions whose answers were known before, and is then
//! made again. Where memory is ample no call is refused: `rt try --test --fail-alloc N` refuses the Nth growth.

mod arena;
mod closer;
mod conditions;
mod net;

use std::alloc::Global;
use std::test::Fail;
use test_programs::ProgramError;

/// What doesn't stand after calls that are refused.
fn first_wrong(alloc: Global) -> Result<Option<&'static str>, ProgramError> {
    if !arena::stand_after_calls(alloc)? {
        return Ok(Some("terms after each call"));
    }
    if !arena::stand_after_replay(alloc)? {
        return Ok(Some("terms after a replay"));
    }
    if !conditions::stand_after_calls(alloc)? {
        return Ok(Some("conditions after each call"));
    }
    if !net::stand_after_calls(alloc)? {
        return Ok(Some("gates after each call"));
    }
    if !net::stand_after_bits(alloc)? {
        return Ok(Some("gates after bits"));
    }
    if !closer::stand_after_calls(alloc)? {
        return Ok(Some("clauses after each call"));
    }
    Ok(None)
}

/// A first try may be refused before there is anything to ask.
#[test]
fn what_stands_after_each_call(rt: HostRuntime) -> Result<(), Fail> {
    let alloc = rt.alloc();
    let wrong = match first_wrong(alloc) {
        Ok(wrong) => wrong,
        Err(_) => first_wrong(alloc)?,
    };
    assert_eq!(rt; wrong, None);
    Ok(())
}
