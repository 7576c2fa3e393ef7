//! What follows from the definitions alone. Each function here has an empty body, and its contract is a law.

ghost use Rattle.std.specs.Prelude.{◌≡◌, ℕ, List, [], None, Option, fold};
ghost use Rattle.elf32.specs.declared.symbols.Symbol.{Symbol};
ghost use Rattle.rv_event.specs.declared.event.Event.{Event};
ghost use Rattle.symbol_stack.specs.Names.{name_of, IsNameOf};
ghost use Rattle.symbol_stack.specs.Stack.{reached_after, reached_by};

/// The function of a program counter has it, begins last of those that have it, and stands first of those
/// that begin there; there is none only where none has it. This fits one answer alone.
pub fn the_name_begins_last_and_stands_first()
    ensures named { (symbols : List Symbol) (pc : ℕ) → IsNameOf symbols pc (name_of symbols pc) }
    ensures one { (symbols : List Symbol) (pc : ℕ) (a b : Option Symbol) → IsNameOf symbols pc a → IsNameOf symbols pc b → a ≡ b }
{}

/// What [`crate::Reached`] is after the events of a run: the calls after all events but the last, and the
/// last event.
pub fn a_run_is_reached()
    ensures { (events : List Event) → fold reached_after (record { calls = []; last = None }) events ≡ reached_by events }
{}
