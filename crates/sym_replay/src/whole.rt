//! The replay of a whole run.

ghost use Rattle.std.specs.Prelude.{◌≡◌, ◌<◌, ◌+◌, ◌↔◌, ℕ, List, length, drop, IfOk, IsTrue};
ghost use Rattle.elf32.specs.Loads.{program_of};
ghost use Rattle.rv_machine.specs.Class.{in_class};
ghost use Rattle.term_model.specs.Conditions.{Hold};
ghost use Rattle.term_arena.specs.Trees.{Extends, trees_of};
ghost use Rattle.input_laws.specs.Inputs.{IsInput};
ghost use Rattle.replay_law.specs.Follow.{shown_next};
ghost use Rattle.replay_law.specs.Crash.{IsProgram, IsCrash, AreProper};
ghost use Rattle.path_condition.specs.Listed.{Belong};
ghost use Rattle.trace_conditions.specs.Conditions.{conditions_of};

use crate::pins::add_event;
use crate::state::ReplayState;
use decode_cache::DecodeCache;
use elf32::Image;
use no_memory::NoMemory;
use path_condition::Conditions;
use rv_event::{End, Events, Transcript};
use std::alloc::Global;
use term_arena::Arena;
use trace_conditions::{conditions_are_proper, conditions_hold_of_the_class};

/// What is shown after an event: the program counter of the next, or the value of the trap that ended the run.
fn shown_after(events: &Events, place: usize, end: End) -> u32
    requires { place < length events.now }
    ensures { result ≡ shown_next (drop (place + 1) events.now) end }
{
    if events.len() - place > 1 {
        return events.event(place + 1).pc;
    }
    match end {
        End::Trap(trap) => trap.value,
        End::Exit(_) | End::Limit => 0,
    }
}

/// The conditions of a run of a program, over an arena: their trees are those of `conditions_of`, in order.
///
/// The run's input is not asked for. Where the transcript is what the run on some input tells, and a trap ended it, the
/// conditions hold of exactly the inputs of its length that have this run.
pub fn replay(
    alloc: Global,
    image: &Image,
    transcript: &Transcript,
    arena: &mut Arena,
) -> Result<Conditions, NoMemory>
    ensures trees { IfOk result (λ c. trees_of arena.new c ≡ conditions_of (program_of image.now) transcript.now) }
    ensures class { (limit : ℕ) (x y : List ℕ) → IsProgram (program_of image.now) →
        IsCrash (program_of image.now) limit x transcript.now → IsInput transcript.now.n y →
        IfOk result (λ c. Hold (trees_of arena.new c) y
        ↔ IsTrue (in_class (program_of image.now) limit transcript.now y)) }
    ensures proper { (limit : ℕ) (x : List ℕ) → IsProgram (program_of image.now) →
        IsCrash (program_of image.now) limit x transcript.now →
        IfOk result (λ c. AreProper transcript.now.n (trees_of arena.new c)) }
    ensures listed { IfOk result (Belong arena.new) }
    ensures keeps { Extends arena.old arena.new }
{
    conditions_hold_of_the_class();
    conditions_are_proper();
    let mut state = ReplayState::start(alloc, image)?;
    let mut conditions = Conditions::new(alloc);
    let mut decoded = DecodeCache::new();
    let events = &transcript.events;
    for i in 0..events.len() {
        let event = events.event(i);
        let shown = shown_after(events, i, transcript.end);
        let instr = decoded.decode(event.pc, event.word);
        add_event(&mut conditions, arena, &state, &event, instr, shown)?;
        state.follow_event(arena, transcript.n, &event, instr)?;
    }
    Ok(conditions)
}
