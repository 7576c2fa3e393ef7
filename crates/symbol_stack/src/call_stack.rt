//! The calls that a run is in.

ghost use Rattle.std.specs.Prelude.{◌≡◌, [], ◌∷◌, ◌++◌, IfOk};
ghost use Rattle.symbol_stack.specs.Stack.{fetched_word, is_call, is_return, without_last, stack_after};

use no_memory::NoMemory;
use rv_decode::{Instr, decode};
use rv_event::{Event, EventKind};
use std::alloc::Global;
use std::marker::Model;
use watchers::{Step, Watched};

/// The program counters of the calls that a run is in, the newest last.
#[derive(Drop)]
pub struct CallStack {
    counters: Vec<u32>,
}

impl Model for CallStack {
    ghost use Rattle.std.specs.Prelude.{ℕ, List};

    ghost Value = { List ℕ };

    ghost view = { λ s. s.counters.items };
}

impl Watched for CallStack {
    ghost use Rattle.symbol_stack.specs.Stack.{stack_after};

    ghost after = { stack_after };
}

/// The instruction of an event.
fn fetched(event: &Event) -> Option<Instr>
    ensures { result ≡ fetched_word event.now.kind event.now.word }
{
    match event.kind {
        EventKind::NoFetch => None,
        _ => decode(event.word),
    }
}

/// Whether an instruction is a call.
fn is_call(instr: Option<Instr>) -> bool
    ensures { result ≡ is_call instr }
{
    match instr {
        Some(Instr::Jal { rd, .. }) => rd == 1,
        Some(Instr::Jalr { rd, .. }) => rd == 1,
        _ => false,
    }
}

/// Whether an instruction is a return.
fn is_return(instr: Option<Instr>) -> bool
    ensures { result ≡ is_return instr }
{
    match instr {
        Some(Instr::Jalr { rd, rs1, .. }) => rd == 0 && rs1 == 1,
        _ => false,
    }
}

impl CallStack {
    /// No call.
    pub fn new(alloc: Global) -> CallStack
        ensures { result ≡ [] }
    {
        CallStack {
            counters: Vec::new(alloc),
        }
    }

    /// The program counters, the newest last.
    pub fn list(&self) -> &[u32]
        ensures { result.now ≡ self.now }
    {
        self.counters.as_slice()
    }

    /// Adds a call.
    fn push(&mut self, pc: u32) -> Result<(), NoMemory>
        ensures { IfOk result (λ _. self.new ≡ self.old ++ pc ∷ []) }
    {
        self.counters.push(pc)?;
        Ok(())
    }

    /// Takes the newest call away, where there is one.
    fn pop(&mut self)
        ensures { self.new ≡ without_last self.old }
    {
        self.counters
            .truncate(self.counters.len().saturating_sub(1));
    }

    /// Follows an event.
    pub(crate) fn follow(&mut self, event: Event) -> Result<(), NoMemory>
        ensures { IfOk result (λ _. self.new ≡ stack_after self.old event) }
    {
        let instr = fetched(&event);
        if is_call(instr) {
            return self.push(event.pc);
        }
        if is_return(instr) {
            self.pop();
        }
        Ok(())
    }
}

/// Adds the event's program counter where it is a call, and takes the newest away where it is a return. A
/// refusal drops the stack.
pub fn call_step(s: CallStack, e: Event) -> Result<CallStack, NoMemory>
    ensures { IfOk result (λ after. after ≡ stack_after s e) }
{
    let mut stack = s;
    stack.follow(e)?;
    Ok(stack)
}

/// The step of [`call_step`].
#[derive(Clone, Copy, Debug)]
pub struct CallStep;

impl Step<CallStack> for CallStep {
    fn next(&self, state: CallStack, event: Event) -> Result<CallStack, NoMemory> {
        call_step(state, event)
    }

    fn advance(&self, state: &mut CallStack, event: Event) -> Result<(), NoMemory> {
        state.follow(event)
    }
}
