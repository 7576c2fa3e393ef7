//! A machine's own calls.

use rv_event::{End, Event, EventKind, Trap, TrapKind};
use rv_machine::Machine;
use std::alloc::Global;
use std::test::Fail;
use test_programs::program_image;
use test_programs::words::JUMP_TO_TWO;

/// Whether a machine tells the event and the end of a jump to 2, and is over then.
fn tells_one_event(alloc: Global) -> Result<bool, Fail> {
    let image = program_image(alloc, &JUMP_TO_TWO, &[])?;
    let mut machine = Machine::start(alloc, &image)?;
    if machine.is_over() {
        return Ok(false);
    }
    let stepped = machine.step(&[]);
    let event = Event {
        pc: 0x1_0000,
        word: 0x0020_0067,
        addr: 0,
        call: [0; 4],
        kind: EventKind::Plain,
    };
    let end = End::Trap(Trap {
        kind: TrapKind::MisalignedJump,
        pc: 0x1_0000,
        value: 2,
    });
    Ok(stepped.event == event && stepped.end == Some(end) && machine.is_over())
}

/// Whether a jump to itself is run on to the limit.
fn runs_on(alloc: Global) -> Result<bool, Fail> {
    // jal x0,0
    let image = program_image(alloc, &[0x6f], &[])?;
    let mut machine = Machine::start(alloc, &image)?;
    let run = machine.run(&[], 1_000_000);
    Ok(run.steps == 1_000_000 && run.end == End::Limit)
}

/// Whether a machine has another place, and another byte at the stack's top, than its copy.
fn is_apart(machine: &Machine, copy: &Machine) -> bool {
    machine.pc() == 0x1_0008
        && copy.pc() == 0x1_0004
        && machine.read_byte(0x7fff_ff00) == Some(65)
        && copy.read_byte(0x7fff_ff00) == Some(0)
        && copy.register(5) == 65
        && copy.read_byte(0) == None
}

/// Whether a machine that goes on leaves its copy as it was.
fn leaves_its_copy(alloc: Global) -> Result<bool, Fail> {
    // addi x5,x0,65; sb x5,0(x2); ebreak
    let image = program_image(alloc, &[0x0410_0293, 0x0051_0023, 0x0010_0073], &[])?;
    let mut machine = Machine::start(alloc, &image)?;
    let _ = machine.run(&[], 1);
    let copy = machine.copy(alloc)?;
    if machine.is_over() {
        return Ok(false);
    }
    let _ = machine.step(&[]);
    Ok(is_apart(&machine, &copy))
}

#[test]
fn steps_and_runs(rt: HostRuntime) -> Result<(), Fail> {
    assert!(rt;
        tells_one_event(rt.alloc())? && runs_on(rt.alloc())? && leaves_its_copy(rt.alloc())?
    );
    Ok(())
}
