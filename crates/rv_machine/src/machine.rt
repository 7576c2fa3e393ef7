//! The machine and its step.
//!
//! What stands on a step's way is inlined, so that a loop that looks at a part of the event alone doesn't
//! make the rest.

ghost use Rattle.std.specs.Prelude.{◌≡◌, ℕ, ◌+◌, ◌-◌, ◌<◌, ◌≤◌, ◌%◌, ◌^◌, true, false, length, Some, None, IfOk, List, [], ◌∷◌};
ghost use Rattle.memory_map.specs.Cells.{first_without, readable_byte};
ghost use Rattle.memory_map.specs.Cells as cells;
ghost use Rattle.memory_map.specs.Heaps.{may_break};
ghost use Rattle.rv_word.specs.Word.{bits};
ghost use Rattle.rv_decode.specs.Rows.{IsWellFormed};
ghost use Rattle.call_replies.specs.Calls.{reply_to};
ghost use Rattle.call_replies.specs.declared.Reply.TheVariants.{Moves, Breaks};
ghost use Rattle.rv_machine.specs.State.{Goes, Ends, reg, write_reg, at, following, no_call, event_of, trap, start};
ghost use Rattle.rv_machine.specs.Effects.{goes_on, taken, jump, exit, size_of, address_of, after_load};
ghost use Rattle.rv_machine.specs.Effects.{after_store, input_bytes, after_call, effect, step};
ghost use Rattle.rv_machine.specs.Progress.{Follows, EndsRun};
ghost use Rattle.rv_machine.specs.Plain.{IsPlain};

use crate::access::{loaded, size_of};
use call_replies::{Reply, reply_to};
use decode_cache::DecodeCache;
use elf32::Image;
use memory_map::{Heap, Memory};
use no_memory::NoMemory;
use rv_decode::{Cond, Instr, Width};
use rv_event::{End, Event, EventKind, Trap, TrapKind};
use rv_word::{alu, bits};
use std::alloc::Global;
use std::marker::Model;

/// What a step gives.
#[derive(Clone, Copy, Debug)]
pub struct Stepped {
    /// The instruction that was executed, or the fetch that failed.
    pub event: Event,
    /// A trap or an exit, where the step ended the run.
    pub end: Option<End>,
}

/// A machine under way on an input: 32 registers, a program counter, a memory, and how much of the input
/// it has read. Contracts see its state and whether its run is over.
#[derive(Drop)]
pub struct Machine {
    registers: [u32; 32],
    pc: u32,
    memory: Memory,
    /// How many bytes of the input have been read.
    place: u32,
    over: bool,
    decoded: DecodeCache,
}

impl Model for Machine {
    ghost use Rattle.rv_machine.specs.Progress.{Progress, progress_code};

    ghost Value = { Progress };

    ghost coded = { progress_code };

    ghost view = { λ m. record {
      state = record {
        registers = m.registers;
        pc = m.pc;
        memory = m.memory.map;
        heap = m.memory.heap;
        place = m.place;
      };
      over = m.over;
    } };
}

/// Whether a branch is taken.
fn is_taken(cond: Cond, a: u32, b: u32) -> bool
    ensures { result ≡ taken cond a b }
{
    match cond {
        Cond::Eq => a == b,
        Cond::Ne => a != b,
        Cond::Lt => a.cast_signed() < b.cast_signed(),
        Cond::Ge => a.cast_signed() >= b.cast_signed(),
        Cond::Ltu => a < b,
        Cond::Geu => a >= b,
    }
}

impl Machine {
    /// A machine at the start of a program: the program counter at the entry, x2 at 0x7fff_ff00 in the
    /// stack, and every other register 0. It holds all memory that it will use.
    #[tactic(auto, unfolding(crate::specs::State::start))]
    pub fn start(alloc: Global, image: &Image) -> Result<Machine, NoMemory>
        ensures state { IfOk result (λ m. m.state ≡ start image.now.entry image.now.segments) }
        ensures running { IfOk result (λ m. m.over ≡ false) }
        ensures unread { IfOk result (λ m. m.state.place ≡ 0) }
    {
        let memory = Memory::start(alloc, image)?;
        let mut registers = [0; 32];
        registers[2] = 0x7fff_ff00;
        Ok(Machine {
            registers,
            pc: image.entry,
            memory,
            place: 0,
            over: false,
            decoded: DecodeCache::new(),
        })
    }

    /// Whether the run is over, by a trap or an exit.
    pub fn is_over(&self) -> bool
        ensures { result ≡ self.now.over }
    {
        self.over
    }

    /// Another machine in the same state. The one error is want of memory.
    pub fn copy(&self, alloc: Global) -> Result<Machine, NoMemory>
        ensures { IfOk result (λ m. m ≡ self.now) }
    {
        let memory = self.memory.copy(alloc)?;
        Ok(Machine {
            registers: self.registers,
            pc: self.pc,
            memory,
            place: self.place,
            over: self.over,
            decoded: DecodeCache::new(),
        })
    }

    /// The address of the next instruction to execute.
    pub fn pc(&self) -> u32
        ensures { result ≡ self.now.state.pc }
    {
        self.pc
    }

    /// The byte at an address, where it may be read. Else nothing.
    pub fn read_byte(&self, a: u32) -> Option<u8>
        ensures { result ≡ readable_byte self.now.state.memory a }
    {
        self.memory.load(a)
    }

    /// The value of a register.
    pub fn register(&self, r: u8) -> u32
        requires { r < 32 }
        ensures { result ≡ reg self.now.state r }
    {
        self.registers[r as usize]
    }

    /// Writes a register. A write to x0 has no effect.
    fn write(&mut self, register: u8, value: u32)
        requires { register < 32 }
        ensures state { self.new.state ≡ write_reg register value self.old.state }
        ensures over { self.new.over ≡ self.old.over }
    {
        if register != 0 {
            self.registers[register as usize] = value;
        }
    }

    /// The data address of a load or a store, and the target of a JALR before its bit 0 is cleared.
    fn address(&self, register: u8, immediate: i32) -> u32
        requires { register < 32 }
        ensures { result ≡ address_of self.now.state register (bits immediate) }
    {
        self.register(register).wrapping_add(bits(immediate))
    }

    /// The sum of the program counter and an offset.
    fn relative(&self, offset: i32) -> u32
        ensures { result ≡ (self.now.state.pc + bits offset) % 2 ^ 32 }
    {
        self.pc.wrapping_add(bits(offset))
    }

    /// The address of the next instruction.
    fn following(&self) -> u32
        ensures { result ≡ following self.now.state.pc }
    {
        self.pc.wrapping_add(4)
    }

    /// Writes a register and goes to the next instruction.
    #[inline(always)]
    fn finish(&mut self, register: u8, value: u32) -> Option<End>
        requires { register < 32 }
        ensures { Follows self.old (goes_on self.old.state register value) result self.new }
    {
        self.write(register, value);
        self.advance()
    }

    /// Goes to the next instruction.
    fn advance(&mut self) -> Option<End>
        ensures { Follows self.old (Goes (at (following self.old.state.pc) self.old.state)) result self.new }
    {
        self.pc = self.following();
        None
    }

    /// Ends the run.
    fn stop(&mut self, end: End) -> Option<End>
        ensures { Follows self.old (Ends end) result self.new }
    {
        self.over = true;
        Some(end)
    }

    /// Ends the run by a trap at the program counter.
    fn trap(&mut self, kind: TrapKind, value: u32) -> Option<End>
        ensures { Follows self.old (trap self.old.state.pc kind value) result self.new }
    {
        self.stop(End::Trap(Trap {
            kind,
            pc: self.pc,
            value,
        }))
    }

    /// Goes to a target, which has to be a multiple of 4, and writes a register. A branch writes none,
    /// which is to write x0.
    #[inline(always)]
    fn jump(&mut self, target: u32, register: u8, value: u32) -> Option<End>
        requires { register < 32 }
        ensures { Follows self.old (jump self.old.state.pc target (write_reg register value self.old.state)) result self.new }
    {
        if target % 4 != 0 {
            return self.trap(TrapKind::MisalignedJump, target);
        }
        self.write(register, value);
        self.pc = target;
        None
    }

    /// The event of a step that is no call.
    #[inline(always)]
    fn event(&self, word: u32, addr: u32, kind: EventKind) -> Event
        ensures { result ≡ event_of self.now.state word addr no_call kind }
    {
        Event {
            pc: self.pc,
            word,
            addr,
            call: [0; 4],
            kind,
        }
    }

    /// The number of a call and its arguments: the values of a7, a0, a1 and a2.
    fn call_values(&self) -> [u32; 4]
        ensures { result
            ≡ reg self.now.state 17 ∷ reg self.now.state 10 ∷ reg self.now.state 11 ∷ reg self.now.state 12 ∷ [] }
    {
        [
            self.register(17),
            self.register(10),
            self.register(11),
            self.register(12),
        ]
    }

    /// The event of a call.
    #[inline(never)]
    fn call_event(&self, word: u32) -> Event
        ensures { result
            ≡ event_of self.now.state word 0 (reg self.now.state 17 ∷ reg self.now.state 10 ∷ reg self.now.state 11
            ∷ reg self.now.state 12 ∷ []) EventKind.Call }
    {
        Event {
            pc: self.pc,
            word,
            addr: 0,
            call: self.call_values(),
            kind: EventKind::Call,
        }
    }

    /// Loads a register.
    fn load(&mut self, width: Width, register: u8, address: u32) -> Option<End>
        requires { register < 32 }
        ensures { Follows self.old (after_load self.old.state width register address
            (first_without cells.read self.old.state.memory address (size_of width))) result self.new }
    {
        match loaded(&self.memory, width, address) {
            Ok(value) => self.finish(register, value),
            Err(fault) => self.trap(TrapKind::LoadFault, fault),
        }
    }

    /// Stores the lowest bytes of a value, or none of them where one may not be written.
    fn store(&mut self, width: Width, address: u32, value: u32) -> Option<End>
        ensures { Follows self.old (after_store self.old.state width value address
            (first_without cells.write self.old.state.memory address (size_of width))) result self.new }
    {
        let bytes = value.to_le_bytes();
        match self.memory.store_bytes(address, &bytes[..size_of(width)]) {
            Ok(()) => self.advance(),
            Err(fault) => self.trap(TrapKind::StoreFault, fault),
        }
    }

    /// Answers a call.
    fn answer(&mut self, value: u32) -> Option<End>
        ensures { Follows self.old (goes_on self.old.state 10 value) result self.new }
    {
        self.finish(10, value)
    }

    /// The next bytes of the input.
    fn next_bytes<'a>(&self, input: &'a [u8], count: u32) -> &'a [u8]
        requires { self.now.state.place + count ≤ length input.now }
        ensures bytes { result.now ≡ input_bytes input.now self.now.state.place count }
        ensures count { length result.now ≡ count }
    {
        let place = self.place as usize;
        &input[place..place + count as usize]
    }

    /// Moves the next bytes of the input to the addresses from a1 up, which may be written, and counts them
    /// in a0.
    fn move_bytes(&mut self, input: &[u8], count: u32) -> Option<End>
        requires place { self.old.state.place + count ≤ length input.now }
        requires size { length input.now ≤ 65536 }
        requires writable { first_without cells.write self.old.state.memory (reg self.old.state 11) count ≡ None }
        ensures { Follows self.old (after_call input.now self.old.state (Moves count)) result self.new }
    {
        let bytes = self.next_bytes(input, count);
        let address = self.register(11);
        self.memory.store_bytes(address, bytes).unwrap();
        self.place += count;
        self.answer(count)
    }

    /// Moves the break of this heap, which is the machine's, to an address where it may be, and answers that.
    fn move_break(&mut self, _heap: Heap, address: u32) -> Option<End>
        requires heap { self.old.state.heap ≡ Some _heap }
        requires may { may_break _heap address ≡ true }
        ensures { (input : List ℕ) → Follows self.old (after_call input self.old.state (Breaks _heap address)) result self.new }
    {
        self.memory.brk(address);
        self.answer(address)
    }

    /// The calls exit and exit_group. A code of 128 or more is an abort.
    fn exit(&mut self, code: u32) -> Option<End>
        ensures { Follows self.old (exit self.old.state.pc code) result self.new }
    {
        if code < 128 {
            self.stop(End::Exit(code))
        } else {
            self.trap(TrapKind::Abort, code)
        }
    }

    /// A call: what its reply says is done.
    #[inline(never)]
    fn call(&mut self, input: &[u8]) -> Option<End>
        requires place { self.old.state.place ≤ length input.now }
        requires size { length input.now ≤ 65536 }
        ensures { Follows self.old (after_call input.now self.old.state (reply_to self.old.state.memory self.old.state.heap
            (length input.now - self.old.state.place) (reg self.old.state 17) (reg self.old.state 10) (reg self.old.state 11)
            (reg self.old.state 12))) result self.new }
    {
        let left = input.len() as u32 - self.place;
        let call = self.call_values();
        match reply_to(&self.memory, left, call) {
            Reply::Answers(value) => self.answer(value),
            Reply::Moves(count) => self.move_bytes(input, count),
            Reply::Breaks(heap, address) => self.move_break(heap, address),
            Reply::Exits(code) => self.exit(code),
        }
    }

    /// An instruction that touches neither memory nor the input.
    #[tactic(auto, unfolding(crate::specs::Effects::effect))]
    #[inline(always)]
    fn plain(&mut self, word: u32, i: Instr) -> Option<End>
        requires well_formed { IsWellFormed i }
        requires plain { IsPlain i }
        ensures { (input : List ℕ) → Follows self.old (effect input self.old.state word i).next result self.new }
    {
        match i {
            Instr::Lui { rd, imm } => self.finish(rd, bits(imm)),
            Instr::Auipc { rd, imm } => self.finish(rd, self.relative(imm)),
            Instr::Jal { rd, offset } => self.jump(self.relative(offset), rd, self.following()),
            Instr::Jalr { rd, rs1, imm } => {
                let target = self.address(rs1, imm);
                self.jump(target - target % 2, rd, self.following())
            }
            Instr::Branch {
                cond,
                rs1,
                rs2,
                offset,
            } => {
                if is_taken(cond, self.register(rs1), self.register(rs2)) {
                    self.jump(self.relative(offset), 0, 0)
                } else {
                    self.advance()
                }
            }
            Instr::AluImm { op, rd, rs1, imm } => {
                self.finish(rd, alu(op, self.register(rs1), bits(imm)))
            }
            Instr::AluReg { op, rd, rs1, rs2 } => {
                self.finish(rd, alu(op, self.register(rs1), self.register(rs2)))
            }
            Instr::Fence { bits: _ } => self.advance(),
            Instr::Ebreak => self.trap(TrapKind::Breakpoint, 0),
            _ => unreachable!(),
        }
    }

    /// Executes an instruction.
    #[tactic(auto, unfolding(crate::specs::Effects::effect))]
    #[inline(always)]
    fn execute(&mut self, input: &[u8], word: u32, i: Instr) -> Stepped
        requires well_formed { IsWellFormed i }
        requires place { self.old.state.place ≤ length input.now }
        requires size { length input.now ≤ 65536 }
        ensures event { result.event ≡ (effect input.now self.old.state word i).event }
        ensures next { Follows self.old (effect input.now self.old.state word i).next result.end self.new }
    {
        match i {
            Instr::Load {
                width,
                rd,
                rs1,
                imm,
            } => {
                let address = self.address(rs1, imm);
                let event = self.event(word, address, EventKind::Load);
                Stepped {
                    event,
                    end: self.load(width, rd, address),
                }
            }
            Instr::Store {
                width,
                rs1,
                rs2,
                imm,
            } => {
                let address = self.address(rs1, imm);
                let event = self.event(word, address, EventKind::Store);
                Stepped {
                    event,
                    end: self.store(width, address, self.register(rs2)),
                }
            }
            Instr::Ecall => {
                let event = self.call_event(word);
                Stepped {
                    event,
                    end: self.call(input),
                }
            }
            _ => {
                let event = self.event(word, 0, EventKind::Plain);
                Stepped {
                    event,
                    end: self.plain(word, i),
                }
            }
        }
    }

    /// One event: an instruction, or a failed fetch.
    #[tactic(auto, unfolding(crate::specs::Effects::step))]
    #[inline(always)]
    fn take_step(&mut self, input: &[u8]) -> Stepped
        requires place { self.old.state.place ≤ length input.now }
        requires size { length input.now ≤ 65536 }
        ensures event { result.event ≡ (step input.now self.old.state).event }
        ensures next { Follows self.old (step input.now self.old.state).next result.end self.new }
    {
        let Some(word) = self.memory.fetch(self.pc) else {
            let event = self.event(0, 0, EventKind::NoFetch);
            return Stepped {
                event,
                end: self.trap(TrapKind::FetchFault, self.pc),
            };
        };
        let Some(i) = self.decoded.decode(self.pc, word) else {
            let event = self.event(word, 0, EventKind::Plain);
            return Stepped {
                event,
                end: self.trap(TrapKind::Illegal, word),
            };
        };
        self.execute(input, word, i)
    }

    /// One event of a run that is not over, on an input of at most 65,536 bytes, of which no more has been
    /// read than it has. After a trap or an exit the run is over. The end is never `Limit`.
    #[inline(always)]
    pub fn step(&mut self, input: &[u8]) -> Stepped
        requires running { self.old.over ≡ false }
        requires place { self.old.state.place ≤ length input.now }
        requires size { length input.now ≤ 65536 }
        ensures event { result.event ≡ (step input.now self.old.state).event }
        ensures next { Follows self.old (step input.now self.old.state).next result.end self.new }
        ensures over { EndsRun result.end self.new.over }
        ensures place { self.new.state.place ≤ length input.now }
    {
        self.take_step(input)
    }
}
