//! The actions over two files: of each, what its second file is, and what it answers.

ghost use Rattle.std.specs.Prelude.{◌≡◌, ◌≤◌, length, IfOk, IfErr};
ghost use Rattle.tool_words.specs.Words.{AreWithin};
ghost use Rattle.crash_tool.specs.Answers.{IsAnswerOf, role_of, limit_of};
ghost use Rattle.crash_tool.specs.Call.{IsBut, IsOfFiles};
ghost use Rattle.crash_tool.specs.Received.{IsAccepted};

use crate::answer::{Answer, Role};
use crate::outcome::outcome;
use crate::receiver::{check, replay, run};
use crate::stack::stack;
use std::alloc::Global;
use tool_words::{Action, Options};

/// The most bytes of a file.
pub fn limit_of(role: Role) -> u32
    ensures { result ≡ limit_of role }
{
    match role {
        Role::Program => 16_777_216,
        Role::Input => 65_536,
        Role::Report => 8_388_608,
    }
}

/// What an action's second file is.
pub fn role_of(action: Action) -> Role
    ensures { result ≡ role_of action }
{
    match action {
        Action::Make | Action::Run => Role::Input,
        Action::Replay | Action::Check | Action::Stack => Role::Report,
    }
}

/// The answer of an action to a program and a second file.
pub fn answer_of(
    alloc: Global,
    action: Action,
    program: &[u8],
    options: Options,
    second: &[u8],
) -> Answer
    requires short { length program.now ≤ limit_of Role.Program }
    requires few { length second.now ≤ limit_of (role_of action) }
    requires options { AreWithin options }
    ensures answer { IsBut (IsAnswerOf action program.now options second.now) result }
    ensures accepted { action ≡ Action.Check → IfOk result (λ _. IsAccepted program.now options second.now) }
    ensures kind { IfErr result IsOfFiles }
{
    match action {
        Action::Make => outcome(alloc, program, options, second),
        Action::Run => run(alloc, program, options, second),
        Action::Replay => replay(alloc, program, second),
        Action::Check => check(alloc, program, options, second),
        Action::Stack => stack(alloc, program, second),
    }
}
