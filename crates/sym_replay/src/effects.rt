//! What the events of a run leave in registers and memory.

ghost use Rattle.std.specs.Prelude.{◌≡◌, ◌<◌, ◌≤◌, ◌+◌, ◌^◌, IfOk, IfSome, OnOk};
ghost use Rattle.rv_word.specs.declared.AluOp.TheVariants.{Add};
ghost use Rattle.term_model.specs.declared.Op.TheVariants.{Alu};
ghost use Rattle.term_model.specs.Tree.{Const};
ghost use Rattle.term_arena.specs.Trees.{Extends};
ghost use Rattle.normal_form.specs.Norm.{norm};
ghost use Rattle.rv_decode.specs.Rows.{IsWellFormed};
ghost use Rattle.rv_decode.specs.Table.{decoded};
ghost use Rattle.replay_law.specs.Terms.{put_reg, put_trees, with_tree};
ghost use Rattle.replay_law.specs.Terms as definitions;
ghost use Rattle.replay_law.specs.Forms.{byte_term as byte_of_term};
ghost use Rattle.call_replies.specs.Replies.{moved, IsOfHeap};
ghost use Rattle.sym_replay.specs.Values.{value_tree, IsValueIn, IsValueOf};
ghost use Rattle.sym_replay.specs.States.{terms_of, register_tree, IsState};

use crate::state::ReplayState;
use crate::value::{Value, byte_of_value, made};
use call_replies::{Reply, reply_to};
use no_memory::NoMemory;
use rv_decode::{Instr, Width};
use rv_event::Event;
use rv_word::{AluOp, bits};
use term_arena::{Arena, Op};

/// A value whose sign stands `distance` bits below bit 31, extended.
fn extended(arena: &mut Arena, v: &Value, distance: u32) -> Result<Value, NoMemory>
    requires { IsValueIn arena.old v.now }
    ensures value { IfOk result (IsValueOf arena.new (definitions.extended_term norm distance (value_tree arena.old v.now))) }
    ensures keeps { Extends arena.old arena.new }
{
    let amount = Value::Known(distance);
    let left = made(arena, Op::Alu(AluOp::Sll), v, &amount)?;
    made(arena, Op::Alu(AluOp::Sra), &left, &amount)
}

impl ReplayState {
    /// The half word at an address.
    fn half(&self, arena: &mut Arena, address: u32) -> Result<Value, NoMemory>
        requires { IsState arena.old self.now }
        ensures value { IfOk result (IsValueOf arena.new (definitions.half_term norm (terms_of arena.old self.now).bytes address)) }
        ensures keeps { Extends arena.old arena.new }
    {
        let low = self.byte(arena, address);
        let high = self.byte(arena, address.wrapping_add(1));
        made(arena, Op::Pair, &low, &high)
    }

    /// What a load gives.
    #[tactic(auto, using(crate::proofs::StateLemmas::grown_state, crate::proofs::StateLemmas::grown_terms))]
    pub(crate) fn loaded(
        &self,
        arena: &mut Arena,
        width: Width,
        address: u32,
    ) -> Result<Value, NoMemory>
        requires { IsState arena.old self.now }
        ensures value { IfOk result (IsValueOf arena.new (definitions.loaded_term norm (terms_of arena.old self.now).bytes width address)) }
        ensures keeps { Extends arena.old arena.new }
    {
        match width {
            Width::B => {
                let byte = self.byte(arena, address);
                extended(arena, &byte, 24)
            }
            Width::Bu => Ok(self.byte(arena, address)),
            Width::H => {
                let half = self.half(arena, address)?;
                extended(arena, &half, 16)
            }
            Width::Hu => self.half(arena, address),
            Width::W => {
                let low = self.half(arena, address)?;
                let high = self.half(arena, address.wrapping_add(2))?;
                made(arena, Op::Half, &low, &high)
            }
        }
    }

    /// Puts byte `k` of a value at an address.
    #[tactic(auto, using(crate::proofs::StateLemmas::grown_state, crate::proofs::StateLemmas::grown_terms))]
    fn store_byte(
        &mut self,
        arena: &mut Arena,
        address: u32,
        v: &Value,
        k: u8,
    ) -> Result<(), NoMemory>
        requires state { IsState arena.old self.old }
        requires value { IsValueIn arena.old v.now }
        requires byte { k < 4 }
        ensures state { OnOk result (IsState arena.new self.new) }
        ensures terms { OnOk result (terms_of arena.new self.new
            ≡ record (terms_of arena.old self.old) {
              bytes = with_tree (terms_of arena.old self.old).bytes address
                  (byte_of_term norm k (value_tree arena.old v.now));
            }) }
        ensures place { self.new.place ≡ self.old.place }
        ensures keeps { Extends arena.old arena.new }
    {
        let byte = byte_of_value(arena, v, k)?;
        self.put_byte(arena, address, &byte)
    }

    /// Puts the two lower bytes of a value at the addresses from one up.
    #[tactic(auto, using(crate::proofs::ValueLemmas::grown_value), unfolding(replay_law::specs::Terms::put_trees))]
    fn store_half(&mut self, arena: &mut Arena, address: u32, v: &Value) -> Result<(), NoMemory>
        requires state { IsState arena.old self.old }
        requires value { IsValueIn arena.old v.now }
        ensures state { OnOk result (IsState arena.new self.new) }
        ensures terms { OnOk result (terms_of arena.new self.new
            ≡ record (terms_of arena.old self.old) {
              bytes = put_trees (terms_of arena.old self.old).bytes address
                  (definitions.stored_terms norm Width.H (value_tree arena.old v.now));
            }) }
        ensures place { self.new.place ≡ self.old.place }
        ensures keeps { Extends arena.old arena.new }
    {
        self.store_byte(arena, address, v, 0)?;
        self.store_byte(arena, address.wrapping_add(1), v, 1)
    }

    /// Puts the four bytes of a value at the addresses from one up.
    #[tactic(auto, using(crate::proofs::ValueLemmas::grown_value), unfolding(replay_law::specs::Terms::put_trees))]
    fn store_word(&mut self, arena: &mut Arena, address: u32, v: &Value) -> Result<(), NoMemory>
        requires state { IsState arena.old self.old }
        requires value { IsValueIn arena.old v.now }
        ensures state { OnOk result (IsState arena.new self.new) }
        ensures terms { OnOk result (terms_of arena.new self.new
            ≡ record (terms_of arena.old self.old) {
              bytes = put_trees (terms_of arena.old self.old).bytes address
                  (definitions.stored_terms norm Width.W (value_tree arena.old v.now));
            }) }
        ensures place { self.new.place ≡ self.old.place }
        ensures keeps { Extends arena.old arena.new }
    {
        let third = address.wrapping_add(1).wrapping_add(1);
        self.store_half(arena, address, v)?;
        self.store_byte(arena, third, v, 2)?;
        self.store_byte(arena, third.wrapping_add(1), v, 3)
    }

    /// Puts what a store moves at the addresses from one up.
    #[tactic(auto, unfolding(replay_law::specs::Terms::put_trees))]
    pub(crate) fn store(
        &mut self,
        arena: &mut Arena,
        width: Width,
        address: u32,
        v: &Value,
    ) -> Result<(), NoMemory>
        requires state { IsState arena.old self.old }
        requires value { IsValueIn arena.old v.now }
        ensures state { OnOk result (IsState arena.new self.new) }
        ensures terms { OnOk result (terms_of arena.new self.new
            ≡ record (terms_of arena.old self.old) {
              bytes = put_trees (terms_of arena.old self.old).bytes address
                  (definitions.stored_terms norm width (value_tree arena.old v.now));
            }) }
        ensures place { self.new.place ≡ self.old.place }
        ensures keeps { Extends arena.old arena.new }
    {
        match width {
            Width::B | Width::Bu => self.store_byte(arena, address, v, 0),
            Width::H | Width::Hu => self.store_half(arena, address, v),
            Width::W => self.store_word(arena, address, v),
        }
    }

    /// Puts the next bytes of the input at the addresses from one up.
    pub(crate) fn read(
        &mut self,
        arena: &mut Arena,
        address: u32,
        count: u32,
    ) -> Result<(), NoMemory>
        requires state { IsState arena.old self.old }
        requires fits { self.old.place + count < 2 ^ 32 }
        ensures state { OnOk result (IsState arena.new self.new) }
        ensures terms { OnOk result (terms_of arena.new self.new
            ≡ record (terms_of arena.old self.old) {
              bytes = put_trees (terms_of arena.old self.old).bytes address
                  (definitions.input_terms self.old.place count);
              place = self.old.place + count;
            }) }
        ensures place { OnOk result (self.new.place ≡ self.old.place + count) }
        ensures keeps { Extends arena.old arena.new }
    {
        let mut at = address;
        for _k in 0..count {
            let byte = arena.input(self.place)?;
            self.put_term(at, byte)?;
            self.place += 1;
            at = at.wrapping_add(1);
        }
        Ok(())
    }

    /// The sum of a register and an immediate: a data address, or a target before its lowest bit is cleared.
    pub(crate) fn sum(
        &self,
        arena: &mut Arena,
        register: u8,
        immediate: u32,
    ) -> Result<Value, NoMemory>
        requires state { IsState arena.old self.now }
        requires register { register < 32 }
        ensures value { IfOk result (IsValueOf arena.new (norm (Alu Add) (register_tree arena.old self.now register) (Const immediate))) }
        ensures keeps { Extends arena.old arena.new }
    {
        let base = self.register(arena, register);
        let added = Value::Known(immediate);
        made(arena, Op::Alu(AluOp::Add), &base, &added)
    }

    /// Puts a number into a register.
    fn put_constant(&mut self, arena: &Arena, register: u8, value: u32)
        requires state { IsState arena.now self.old }
        requires register { register < 32 }
        ensures state { IsState arena.now self.new }
        ensures terms { terms_of arena.now self.new ≡ put_reg register (Const value) (terms_of arena.now self.old) }
        ensures place { self.new.place ≡ self.old.place }
    {
        let _ = arena;
        self.put(register, Value::Known(value));
    }

    /// Puts the result of an operation on two values into a register.
    fn put_made(
        &mut self,
        arena: &mut Arena,
        register: u8,
        op: AluOp,
        a: &Value,
        b: &Value,
    ) -> Result<(), NoMemory>
        requires state { IsState arena.old self.old }
        requires register { register < 32 }
        requires first { IsValueIn arena.old a.now }
        requires second { IsValueIn arena.old b.now }
        ensures state { OnOk result (IsState arena.new self.new) }
        ensures terms { OnOk result (terms_of arena.new self.new
            ≡ put_reg register (norm (Alu op) (value_tree arena.old a.now) (value_tree arena.old b.now)) (terms_of arena.old self.old)) }
        ensures place { self.new.place ≡ self.old.place }
        ensures keeps { Extends arena.old arena.new }
    {
        let v = made(arena, Op::Alu(op), a, b)?;
        self.put(register, v);
        Ok(())
    }

    /// Puts what a load gives into a register.
    fn load(
        &mut self,
        arena: &mut Arena,
        width: Width,
        register: u8,
        address: u32,
    ) -> Result<(), NoMemory>
        requires state { IsState arena.old self.old }
        requires register { register < 32 }
        ensures state { OnOk result (IsState arena.new self.new) }
        ensures terms { OnOk result (terms_of arena.new self.new
            ≡ put_reg register (definitions.loaded_term norm (terms_of arena.old self.old).bytes width address) (terms_of arena.old self.old)) }
        ensures place { self.new.place ≡ self.old.place }
        ensures keeps { Extends arena.old arena.new }
    {
        let v = self.loaded(arena, width, address)?;
        self.put(register, v);
        Ok(())
    }

    /// What a call leaves, by its reply.
    fn answer(&mut self, arena: &mut Arena, event: &Event, reply: Reply) -> Result<(), NoMemory>
        requires state { IsState arena.old self.old }
        requires reply { IsOfHeap self.old.memory.heap reply }
        requires fits { self.old.place + moved reply < 2 ^ 32 }
        ensures state { OnOk result (IsState arena.new self.new) }
        ensures terms { OnOk result (terms_of arena.new self.new
            ≡ definitions.after_reply (terms_of arena.old self.old) event.now reply) }
        ensures place { OnOk result (self.new.place ≡ self.old.place + moved reply) }
        ensures keeps { Extends arena.old arena.new }
    {
        match reply {
            Reply::Answers(value) => {
                self.put_constant(arena, 10, value);
                Ok(())
            }
            Reply::Moves(count) => {
                self.read(arena, event.call[2], count)?;
                self.put_constant(arena, 10, count);
                Ok(())
            }
            Reply::Breaks(heap, address) => {
                self.move_break(heap, address);
                self.put_constant(arena, 10, address);
                Ok(())
            }
            Reply::Exits(_) => Ok(()),
        }
    }

    /// What a call leaves. The length of the input is `n`.
    fn call(&mut self, arena: &mut Arena, n: u32, event: &Event) -> Result<(), NoMemory>
        requires state { IsState arena.old self.old }
        requires place { self.old.place ≤ n }
        ensures state { OnOk result (IsState arena.new self.new) }
        ensures terms { OnOk result (terms_of arena.new self.new
            ≡ definitions.after_row norm n (terms_of arena.old self.old) event.now Instr.Ecall) }
        ensures place { OnOk result (self.new.place ≤ n) }
        ensures keeps { Extends arena.old arena.new }
    {
        let reply = reply_to(&self.memory, n - self.place, event.call);
        self.answer(arena, event, reply)
    }

    /// What an instruction leaves.
    pub(crate) fn follow(
        &mut self,
        arena: &mut Arena,
        n: u32,
        event: &Event,
        instr: Instr,
    ) -> Result<(), NoMemory>
        requires state { IsState arena.old self.old }
        requires well_formed { IsWellFormed instr }
        requires place { self.old.place ≤ n }
        ensures state { OnOk result (IsState arena.new self.new) }
        ensures terms { OnOk result (terms_of arena.new self.new
            ≡ definitions.after_row norm n (terms_of arena.old self.old) event.now instr) }
        ensures place { OnOk result (self.new.place ≤ n) }
        ensures keeps { Extends arena.old arena.new }
    {
        match instr {
            Instr::Lui { rd, imm } => {
                self.put_constant(arena, rd, bits(imm));
                Ok(())
            }
            Instr::Auipc { rd, imm } => {
                self.put_constant(arena, rd, event.pc.wrapping_add(bits(imm)));
                Ok(())
            }
            Instr::Jal { rd, offset: _ } => {
                self.put_constant(arena, rd, event.pc.wrapping_add(4));
                Ok(())
            }
            Instr::Jalr { rd, rs1: _, imm: _ } => {
                self.put_constant(arena, rd, event.pc.wrapping_add(4));
                Ok(())
            }
            Instr::Branch { .. } => Ok(()),
            Instr::Load {
                width,
                rd,
                rs1: _,
                imm: _,
            } => self.load(arena, width, rd, event.addr),
            Instr::Store {
                width,
                rs1: _,
                rs2,
                imm: _,
            } => {
                let v = self.register(arena, rs2);
                self.store(arena, width, event.addr, &v)
            }
            Instr::AluImm { op, rd, rs1, imm } => {
                let a = self.register(arena, rs1);
                let b = Value::Known(bits(imm));
                self.put_made(arena, rd, op, &a, &b)
            }
            Instr::AluReg { op, rd, rs1, rs2 } => {
                let a = self.register(arena, rs1);
                let b = self.register(arena, rs2);
                self.put_made(arena, rd, op, &a, &b)
            }
            Instr::Fence { .. } => Ok(()),
            Instr::Ecall => self.call(arena, n, event),
            Instr::Ebreak => Ok(()),
        }
    }

    /// What an event leaves, by the instruction that its word stands for. An illegal word leaves all as it is.
    #[tactic(auto, unfolding(replay_law::specs::Terms::terms_after))]
    pub(crate) fn follow_event(
        &mut self,
        arena: &mut Arena,
        n: u32,
        event: &Event,
        instr: Option<Instr>,
    ) -> Result<(), NoMemory>
        requires state { IsState arena.old self.old }
        requires place { self.old.place ≤ n }
        requires word { instr ≡ decoded event.now.word }
        requires well_formed { IfSome instr IsWellFormed }
        ensures state { OnOk result (IsState arena.new self.new) }
        ensures terms { OnOk result (terms_of arena.new self.new
            ≡ definitions.terms_after norm n (terms_of arena.old self.old) event.now) }
        ensures place { OnOk result (self.new.place ≤ n) }
        ensures keeps { Extends arena.old arena.new }
    {
        match instr {
            Some(row) => self.follow(arena, n, event, row),
            None => Ok(()),
        }
    }
}
