//! What the events of a run ask of another input.

ghost use Rattle.std.specs.Prelude.{◌≡◌, ◌<◌, ◌+◌, OnOk, IfSome, if◌then◌else◌, ◌==◌, ◌++◌, [], true};
ghost use Rattle.rv_word.specs.declared.AluOp.TheVariants.{Add};
ghost use Rattle.term_model.specs.declared.Op.TheVariants.{Alu};
ghost use Rattle.term_model.specs.Tree.{Const};
ghost use Rattle.term_arena.specs.Trees.{Extends};
ghost use Rattle.normal_form.specs.Norm.{norm};
ghost use Rattle.term_model.specs.ByteNumber.{TakesByteNumber};
ghost use Rattle.rv_decode.specs.Rows.{IsWellFormed};
ghost use Rattle.replay_law.specs.Forms.{branch_conditions};
ghost use Rattle.replay_law.specs.Forms as forms;
ghost use Rattle.replay_law.specs.Follow.{fetched_byte, fetch_conditions, row_conditions, instr_conditions, event_conditions};
ghost use Rattle.rv_decode.specs.Table.{decoded};
ghost use Rattle.path_condition.specs.Listed.{Belong};
ghost use Rattle.sym_replay.specs.Values.{value_tree, IsValueIn};
ghost use Rattle.sym_replay.specs.States.{terms_of, register_tree, IsState};
ghost use Rattle.sym_replay.specs.Pins.{Adds, call_conditions, IsTarget, IsKnownTarget};

use crate::state::ReplayState;
use crate::value::{Value, are_same_number, made};
use no_memory::NoMemory;
use path_condition::Conditions;
use rv_decode::{Cond, Instr};
use rv_event::{Event, EventKind};
use rv_word::{AluOp, bits, byte_of};
use term_arena::{Arena, Op};

/// Whether a number is a target once its lowest bit is cleared.
fn is_target(sum: u32, target: u32) -> bool
    ensures { result ≡ true → IsTarget sum target }
{
    byte_of(0, sum) & 0xfe == byte_of(0, target)
        && byte_of(1, sum) == byte_of(1, target)
        && byte_of(2, sum) == byte_of(2, target)
        && byte_of(3, sum) == byte_of(3, target)
}

/// Whether a value is known to be a target once its lowest bit is cleared.
fn is_known_target(sum: &Value, target: u32) -> bool
    ensures { result ≡ true → IsKnownTarget sum.now target }
{
    match sum {
        Value::Known(word) => is_target(*word, target),
        Value::Term(_) => false,
    }
}

/// Adds that a truth value is 1.
fn add_holds(conditions: &mut Conditions, arena: &mut Arena, v: &Value) -> Result<(), NoMemory>
    requires listed { Belong arena.old conditions.old }
    requires value { IsValueIn arena.old v.now }
    ensures trees { OnOk result (Adds arena.old conditions.old (forms.succeeds (value_tree arena.old v.now)) arena.new conditions.new) }
    ensures listed { Belong arena.new conditions.new }
    ensures keeps { Extends arena.old arena.new }
{
    if v.is_number(1) {
        return Ok(());
    }
    let t = v.interned(arena)?;
    conditions.add_holds(arena, t)
}

/// Adds that a truth value is 0.
fn add_fails(conditions: &mut Conditions, arena: &mut Arena, v: &Value) -> Result<(), NoMemory>
    requires listed { Belong arena.old conditions.old }
    requires value { IsValueIn arena.old v.now }
    ensures trees { OnOk result (Adds arena.old conditions.old (forms.fails norm (value_tree arena.old v.now)) arena.new conditions.new) }
    ensures listed { Belong arena.new conditions.new }
    ensures keeps { Extends arena.old arena.new }
{
    let zero = Value::Known(0);
    let fails = made(arena, Op::Eq, v, &zero)?;
    add_holds(conditions, arena, &fails)
}

/// Adds that two values are equal.
fn add_equal(
    conditions: &mut Conditions,
    arena: &mut Arena,
    a: &Value,
    b: &Value,
) -> Result<(), NoMemory>
    requires listed { Belong arena.old conditions.old }
    requires first { IsValueIn arena.old a.now }
    requires second { IsValueIn arena.old b.now }
    ensures trees { OnOk result (Adds arena.old conditions.old
        (forms.equal norm (value_tree arena.old a.now) (value_tree arena.old b.now)) arena.new conditions.new) }
    ensures listed { Belong arena.new conditions.new }
    ensures keeps { Extends arena.old arena.new }
{
    if are_same_number(a, b) {
        return Ok(());
    }
    let first = a.interned(arena)?;
    let second = b.interned(arena)?;
    conditions.add_equal(arena, first, second)
}

/// Adds that a value is a number.
fn add_pin(
    conditions: &mut Conditions,
    arena: &mut Arena,
    v: &Value,
    number: u32,
) -> Result<(), NoMemory>
    requires listed { Belong arena.old conditions.old }
    requires value { IsValueIn arena.old v.now }
    ensures trees { OnOk result (Adds arena.old conditions.old (forms.pin norm (value_tree arena.old v.now) number) arena.new conditions.new) }
    ensures listed { Belong arena.new conditions.new }
    ensures keeps { Extends arena.old arena.new }
{
    if v.is_number(number) {
        return Ok(());
    }
    let t = v.interned(arena)?;
    conditions.add_pin(arena, t, number)
}

/// Adds that a sum is a target once its lowest bit is cleared.
fn add_target(
    conditions: &mut Conditions,
    arena: &mut Arena,
    sum: &Value,
    target: u32,
) -> Result<(), NoMemory>
    requires listed { Belong arena.old conditions.old }
    requires value { IsValueIn arena.old sum.now }
    ensures trees { OnOk result (Adds arena.old conditions.old (forms.target norm (value_tree arena.old sum.now) target) arena.new conditions.new) }
    ensures listed { Belong arena.new conditions.new }
    ensures keeps { Extends arena.old arena.new }
{
    if is_known_target(sum, target) {
        return Ok(());
    }
    let t = sum.interned(arena)?;
    conditions.add_target(arena, t, target)
}

/// Adds that a comparison of two values holds, or that it doesn't.
fn add_comparison(
    conditions: &mut Conditions,
    arena: &mut Arena,
    op: Op,
    a: &Value,
    b: &Value,
    holds: bool,
) -> Result<(), NoMemory>
    requires listed { Belong arena.old conditions.old }
    requires first { IsValueIn arena.old a.now }
    requires second { IsValueIn arena.old b.now }
    requires comparison { TakesByteNumber op (value_tree arena.old b.now) }
    ensures trees { OnOk result (Adds arena.old conditions.old
        (if holds then forms.succeeds (norm op (value_tree arena.old a.now) (value_tree arena.old b.now))
        else forms.fails norm (norm op (value_tree arena.old a.now) (value_tree arena.old b.now)))
        arena.new conditions.new) }
    ensures listed { Belong arena.new conditions.new }
    ensures keeps { Extends arena.old arena.new }
{
    let comparison = made(arena, op, a, b)?;
    if holds {
        add_holds(conditions, arena, &comparison)
    } else {
        add_fails(conditions, arena, &comparison)
    }
}

/// Adds that a branch on two values was taken, or that it wasn't.
fn add_outcome(
    conditions: &mut Conditions,
    arena: &mut Arena,
    cond: Cond,
    a: &Value,
    b: &Value,
    taken: bool,
) -> Result<(), NoMemory>
    requires listed { Belong arena.old conditions.old }
    requires first { IsValueIn arena.old a.now }
    requires second { IsValueIn arena.old b.now }
    ensures trees { OnOk result (Adds arena.old conditions.old
        (branch_conditions norm cond (value_tree arena.old a.now) (value_tree arena.old b.now) taken) arena.new conditions.new) }
    ensures listed { Belong arena.new conditions.new }
    ensures keeps { Extends arena.old arena.new }
{
    match cond {
        Cond::Eq | Cond::Ne if (cond == Cond::Eq) == taken => add_equal(conditions, arena, a, b),
        Cond::Eq | Cond::Ne => add_comparison(conditions, arena, Op::Eq, a, b, false),
        Cond::Lt => add_comparison(conditions, arena, Op::Alu(AluOp::Slt), a, b, taken),
        Cond::Ge => add_comparison(conditions, arena, Op::Alu(AluOp::Slt), a, b, !taken),
        Cond::Ltu => add_comparison(conditions, arena, Op::Alu(AluOp::Sltu), a, b, taken),
        Cond::Geu => add_comparison(conditions, arena, Op::Alu(AluOp::Sltu), a, b, !taken),
    }
}

/// Adds that the byte at an address is byte `k` of a word.
fn add_fetched_byte(
    conditions: &mut Conditions,
    arena: &mut Arena,
    state: &ReplayState,
    address: u32,
    word: u32,
    k: u8,
) -> Result<(), NoMemory>
    requires listed { Belong arena.old conditions.old }
    requires state { IsState arena.old state.now }
    requires byte { k < 4 }
    ensures trees { OnOk result (Adds arena.old conditions.old
        (forms.succeeds (fetched_byte norm (terms_of arena.old state.now) address word k)) arena.new conditions.new) }
    ensures listed { Belong arena.new conditions.new }
    ensures keeps { Extends arena.old arena.new }
{
    let byte = state.byte(arena, address);
    let wanted = Value::Known(u32::from(byte_of(k, word)));
    let same = made(arena, Op::Eq, &byte, &wanted)?;
    add_holds(conditions, arena, &same)
}

/// Adds that the four bytes from an address up are those of a word.
#[tactic(auto, using(crate::proofs::StateLemmas::grown_state))]
fn add_fetch(
    conditions: &mut Conditions,
    arena: &mut Arena,
    state: &ReplayState,
    address: u32,
    word: u32,
) -> Result<(), NoMemory>
    requires listed { Belong arena.old conditions.old }
    requires state { IsState arena.old state.now }
    ensures trees { OnOk result (Adds arena.old conditions.old
        (fetch_conditions norm (terms_of arena.old state.now) address word) arena.new conditions.new) }
    ensures listed { Belong arena.new conditions.new }
    ensures keeps { Extends arena.old arena.new }
{
    if state.knows_word(address, word) {
        return Ok(());
    }
    let second = address.wrapping_add(1);
    let third = second.wrapping_add(1);
    let fourth = third.wrapping_add(1);
    add_fetched_byte(conditions, arena, state, address, word, 0)?;
    add_fetched_byte(conditions, arena, state, second, word, 1)?;
    add_fetched_byte(conditions, arena, state, third, word, 2)?;
    add_fetched_byte(conditions, arena, state, fourth, word, 3)
}

/// Adds that a register has a value.
fn add_register(
    conditions: &mut Conditions,
    arena: &mut Arena,
    state: &ReplayState,
    register: u8,
    value: u32,
) -> Result<(), NoMemory>
    requires listed { Belong arena.old conditions.old }
    requires state { IsState arena.old state.now }
    requires register { register < 32 }
    ensures trees { OnOk result (Adds arena.old conditions.old
        (forms.pin norm (register_tree arena.old state.now register) value) arena.new conditions.new) }
    ensures listed { Belong arena.new conditions.new }
    ensures keeps { Extends arena.old arena.new }
{
    let v = state.register(arena, register);
    add_pin(conditions, arena, &v, value)
}

/// Adds that the values of a call are those of its event.
#[tactic(auto, using(crate::proofs::StateLemmas::grown_state))]
fn add_call(
    conditions: &mut Conditions,
    arena: &mut Arena,
    state: &ReplayState,
    call: [u32; 4],
) -> Result<(), NoMemory>
    requires listed { Belong arena.old conditions.old }
    requires state { IsState arena.old state.now }
    ensures trees { OnOk result (Adds arena.old conditions.old (call_conditions (terms_of arena.old state.now) call) arena.new conditions.new) }
    ensures listed { Belong arena.new conditions.new }
    ensures keeps { Extends arena.old arena.new }
{
    add_register(conditions, arena, state, 17, call[0])?;
    add_register(conditions, arena, state, 10, call[1])?;
    add_register(conditions, arena, state, 11, call[2])?;
    add_register(conditions, arena, state, 12, call[3])
}

/// Adds that a branch had the outcome that is shown after it. A branch to the next instruction has none.
fn add_branch(
    conditions: &mut Conditions,
    arena: &mut Arena,
    cond: Cond,
    a: &Value,
    b: &Value,
    target: u32,
    next: u32,
    shown: u32,
) -> Result<(), NoMemory>
    requires listed { Belong arena.old conditions.old }
    requires first { IsValueIn arena.old a.now }
    requires second { IsValueIn arena.old b.now }
    ensures trees { OnOk result (Adds arena.old conditions.old
        (if target == next then [] else branch_conditions norm cond (value_tree arena.old a.now) (value_tree arena.old b.now)
        (shown == target)) arena.new conditions.new) }
    ensures listed { Belong arena.new conditions.new }
    ensures keeps { Extends arena.old arena.new }
{
    if target == next {
        return Ok(());
    }
    add_outcome(conditions, arena, cond, a, b, shown == target)
}

/// Adds that a register and an immediate sum to a data address.
fn add_address(
    conditions: &mut Conditions,
    arena: &mut Arena,
    state: &ReplayState,
    register: u8,
    immediate: u32,
    address: u32,
) -> Result<(), NoMemory>
    requires listed { Belong arena.old conditions.old }
    requires state { IsState arena.old state.now }
    requires register { register < 32 }
    ensures trees { OnOk result (Adds arena.old conditions.old
        (forms.pin norm (norm (Alu Add) (register_tree arena.old state.now register) (Const immediate)) address) arena.new conditions.new) }
    ensures listed { Belong arena.new conditions.new }
    ensures keeps { Extends arena.old arena.new }
{
    let sum = state.sum(arena, register, immediate)?;
    add_pin(conditions, arena, &sum, address)
}

/// Adds that a register and an immediate sum to a target once the lowest bit is cleared.
fn add_jump(
    conditions: &mut Conditions,
    arena: &mut Arena,
    state: &ReplayState,
    register: u8,
    immediate: u32,
    target: u32,
) -> Result<(), NoMemory>
    requires listed { Belong arena.old conditions.old }
    requires state { IsState arena.old state.now }
    requires register { register < 32 }
    ensures trees { OnOk result (Adds arena.old conditions.old
        (forms.target norm (norm (Alu Add) (register_tree arena.old state.now register) (Const immediate)) target) arena.new conditions.new) }
    ensures listed { Belong arena.new conditions.new }
    ensures keeps { Extends arena.old arena.new }
{
    let sum = state.sum(arena, register, immediate)?;
    add_target(conditions, arena, &sum, target)
}

/// Adds what an instruction asks, by its event and by what is shown after it.
#[tactic(auto, unfolding(replay_law::specs::Forms::with_conditions))]
fn add_row(
    conditions: &mut Conditions,
    arena: &mut Arena,
    state: &ReplayState,
    event: &Event,
    shown: u32,
    instr: Instr,
) -> Result<(), NoMemory>
    requires listed { Belong arena.old conditions.old }
    requires state { IsState arena.old state.now }
    requires well_formed { IsWellFormed instr }
    ensures trees { OnOk result (Adds arena.old conditions.old
        (row_conditions norm (terms_of arena.old state.now) event.now shown instr) arena.new conditions.new) }
    ensures listed { Belong arena.new conditions.new }
    ensures keeps { Extends arena.old arena.new }
{
    match instr {
        Instr::Jalr { rd: _, rs1, imm } => {
            add_jump(conditions, arena, state, rs1, bits(imm), shown)
        }
        Instr::Branch {
            cond,
            rs1,
            rs2,
            offset,
        } => {
            let a = state.register(arena, rs1);
            let b = state.register(arena, rs2);
            let target = event.pc.wrapping_add(bits(offset));
            let next = event.pc.wrapping_add(4);
            add_branch(conditions, arena, cond, &a, &b, target, next, shown)
        }
        Instr::Load {
            width: _,
            rd: _,
            rs1,
            imm,
        } => add_address(conditions, arena, state, rs1, bits(imm), event.addr),
        Instr::Store {
            width: _,
            rs1,
            rs2: _,
            imm,
        } => add_address(conditions, arena, state, rs1, bits(imm), event.addr),
        Instr::Ecall => add_call(conditions, arena, state, event.call),
        Instr::Lui { .. } => Ok(()),
        Instr::Auipc { .. } => Ok(()),
        Instr::Jal { .. } => Ok(()),
        Instr::AluImm { .. } => Ok(()),
        Instr::AluReg { .. } => Ok(()),
        Instr::Fence { .. } => Ok(()),
        Instr::Ebreak => Ok(()),
    }
}

/// Adds what a fetched word asks, by its event and by what is shown after it. An illegal word asks only that it is fetched.
#[tactic(auto, unfolding(replay_law::specs::Forms::with_conditions))]
fn add_word(
    conditions: &mut Conditions,
    arena: &mut Arena,
    state: &ReplayState,
    event: &Event,
    instr: Option<Instr>,
    shown: u32,
) -> Result<(), NoMemory>
    requires listed { Belong arena.old conditions.old }
    requires state { IsState arena.old state.now }
    requires word { instr ≡ decoded event.now.word }
    requires well_formed { IfSome instr IsWellFormed }
    ensures trees { OnOk result (Adds arena.old conditions.old
        (fetch_conditions norm (terms_of arena.old state.now) event.now.pc event.now.word
        ++ instr_conditions norm (terms_of arena.old state.now) event.now shown (decoded event.now.word)) arena.new conditions.new) }
    ensures listed { Belong arena.new conditions.new }
    ensures keeps { Extends arena.old arena.new }
{
    add_fetch(conditions, arena, state, event.pc, event.word)?;
    match instr {
        Some(row) => add_row(conditions, arena, state, event, shown, row),
        None => Ok(()),
    }
}

/// Adds what an event asks, by the instruction that its word stands for and by what is shown after it: the program counter of
/// the next event, or the value of the trap that ended the run.
#[tactic(auto, unfolding(replay_law::specs::Follow::event_conditions, replay_law::specs::Forms::with_conditions))]
pub(crate) fn add_event(
    conditions: &mut Conditions,
    arena: &mut Arena,
    state: &ReplayState,
    event: &Event,
    instr: Option<Instr>,
    shown: u32,
) -> Result<(), NoMemory>
    requires listed { Belong arena.old conditions.old }
    requires state { IsState arena.old state.now }
    requires word { instr ≡ decoded event.now.word }
    requires well_formed { IfSome instr IsWellFormed }
    ensures trees { OnOk result (Adds arena.old conditions.old
        (event_conditions norm (terms_of arena.old state.now) event.now shown) arena.new conditions.new) }
    ensures listed { Belong arena.new conditions.new }
    ensures keeps { Extends arena.old arena.new }
{
    match event.kind {
        EventKind::NoFetch => Ok(()),
        _ => add_word(conditions, arena, state, event, instr, shown),
    }
}
