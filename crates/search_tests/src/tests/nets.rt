//! Gates as a caller makes them.

ghost use Rattle.std.specs.Prelude.{◌<◌, ◌≤◌, length, IfOk};

use gate_net::{Clause, ClauseList, Formula, Gate, Lit, Net};
use std::alloc::{AllocError, Global};
use std::test::Fail;

/// The Lit of a bit of the input.
fn bit(net: &mut Net, place: u32, bit: u8) -> Result<Lit, AllocError>
    requires { bit < 8 }
    ensures below { IfOk result (λ l. l.name < length net.new) }
    ensures grows { length net.old ≤ length net.new }
{
    net.input_bit(place, bit)
}

fn and(net: &mut Net, a: Lit, b: Lit) -> Result<Lit, AllocError>
    requires first { a.name < length net.old }
    requires second { b.name < length net.old }
    ensures below { IfOk result (λ l. l.name < length net.new) }
    ensures grows { length net.old ≤ length net.new }
{
    net.and(a, b)
}

fn or(net: &mut Net, a: Lit, b: Lit) -> Result<Lit, AllocError>
    requires first { a.name < length net.old }
    requires second { b.name < length net.old }
    ensures below { IfOk result (λ l. l.name < length net.new) }
    ensures grows { length net.old ≤ length net.new }
{
    net.or(a, b)
}

fn xor(net: &mut Net, a: Lit, b: Lit) -> Result<Lit, AllocError>
    requires first { a.name < length net.old }
    requires second { b.name < length net.old }
    ensures below { IfOk result (λ l. l.name < length net.new) }
    ensures grows { length net.old ≤ length net.new }
{
    net.xor(a, b)
}

fn mux(net: &mut Net, c: Lit, a: Lit, b: Lit) -> Result<Lit, AllocError>
    requires choice { c.name < length net.old }
    requires first { a.name < length net.old }
    requires second { b.name < length net.old }
    ensures below { IfOk result (λ l. l.name < length net.new) }
    ensures grows { length net.old ≤ length net.new }
{
    net.mux(c, a, b)
}

/// Whether a net has so many names.
fn has(net: &Net, names: u64) -> bool {
    net.len() == names
}

/// Whether this is the top of a name's tree.
fn is_gate(net: &Net, name: u64, gate: Gate) -> bool
    requires { name < length net.now }
{
    net.gate(name) == gate
}

#[test]
fn a_new_net_has_yes_alone(rt: HostRuntime) -> Result<(), Fail> {
    let net = Net::new(rt.alloc())?;
    assert!(rt; has(&net, 1) && is_gate(&net, 0, Gate::Yes));
    Ok(())
}

/// Whether `and` of a new bit with a constant or its own operand makes no gate.
fn and_makes_no_gate(net: &mut Net) -> Result<bool, AllocError>
    requires { 0 < length net.old }
{
    let a = bit(net, 0, 0)?;
    Ok(
        and(net, a, a.not())? == Lit::NO
            && and(net, a, Lit::NO)? == Lit::NO
            && and(net, Lit::YES, a)? == a
            && has(net, 2),
    )
}

/// Whether `xor` of a new bit with a constant or its own operand makes no gate.
fn xor_makes_no_gate(net: &mut Net) -> Result<bool, AllocError>
    requires { 0 < length net.old }
{
    let a = bit(net, 0, 0)?;
    Ok(
        xor(net, a, a.not())? == Lit::YES
            && xor(net, a, a)? == Lit::NO
            && xor(net, a, Lit::YES)? == a.not()
            && has(net, 2),
    )
}

/// Whether a choice by a constant, or of equal bits, makes no gate.
fn mux_makes_no_gate(net: &mut Net) -> Result<bool, AllocError>
    requires { 0 < length net.old }
{
    let a = bit(net, 0, 0)?;
    let b = bit(net, 0, 1)?;
    Ok(
        mux(net, Lit::YES, a, b)? == a
            && mux(net, Lit::NO, a, b)? == b
            && mux(net, a, b, b)? == b
            && has(net, 3),
    )
}

#[test]
fn constants_and_operands_need_no_gate(rt: HostRuntime) -> Result<(), Fail> {
    assert!(rt; and_makes_no_gate(&mut Net::new(rt.alloc())?)?);
    assert!(rt; xor_makes_no_gate(&mut Net::new(rt.alloc())?)?);
    assert!(rt; mux_makes_no_gate(&mut Net::new(rt.alloc())?)?);
    Ok(())
}

/// Whether the signs of operands are taken off `xor`.
fn xor_takes_signs_off(net: &mut Net) -> Result<bool, AllocError> {
    let a = bit(net, 0, 0)?;
    let b = bit(net, 1, 7)?;
    let apart = xor(net, a, b)?;
    Ok(
        xor(net, a.not(), b)? == apart.not()
            && is_gate(net, apart.name, Gate::Xor(a, b))
            && has(net, 4),
    )
}

/// Whether equal trees have one name, and others have not.
fn equal_trees_are_one(net: &mut Net) -> Result<bool, AllocError> {
    let a = bit(net, 0, 0)?;
    let b = bit(net, 1, 7)?;
    let both = and(net, a, b.not())?;
    Ok(or(net, a.not(), b)? == both.not() && and(net, b.not(), a)? != both && has(net, 5))
}

/// Whether a choice takes three gates, once.
fn choice_takes_three(net: &mut Net) -> Result<bool, AllocError> {
    let c = bit(net, 0, 0)?;
    let a = bit(net, 0, 1)?;
    let b = bit(net, 0, 2)?;
    let chosen = mux(net, c, a, b)?;
    Ok(has(net, 7) && mux(net, c, a, b)? == chosen && has(net, 7))
}

#[test]
fn equal_trees_are_one_name(rt: HostRuntime) -> Result<(), Fail> {
    assert!(rt; xor_takes_signs_off(&mut Net::new(rt.alloc())?)?);
    assert!(rt; equal_trees_are_one(&mut Net::new(rt.alloc())?)?);
    assert!(rt; choice_takes_three(&mut Net::new(rt.alloc())?)?);
    Ok(())
}

/// Whether a refusal of one more bit leaves the net as long as it was.
fn refusal_adds_nothing(net: &mut Net, place: u32) -> bool
    ensures grows { length net.old ≤ length net.new }
{
    let before = net.len();
    net.input_bit(place, 0).is_ok() || net.len() == before
}

#[test]
fn a_refusal_leaves_each_name(rt: HostRuntime) -> Result<(), Fail> {
    let mut net = Net::new(rt.alloc())?;
    let a = bit(&mut net, 0, 0)?;
    for place in 1..40 {
        assert!(rt; refusal_adds_nothing(&mut net, place));
        assert!(rt; is_gate(&net, a.name, Gate::Bit { place: 0, bit: 0 }));
    }
    Ok(())
}

/// Whether a formula without clauses has none.
fn formula_keeps_none(alloc: Global) -> bool {
    let formula = Formula {
        names: 1,
        clauses: ClauseList::from_vec(Vec::new(alloc)),
    };
    formula.clauses.as_slice().len() == 0 && formula.clauses.into_vec().len() == 0
}

#[test]
fn lists_keep_their_items(rt: HostRuntime) -> Result<(), Fail> {
    let clause = Clause::from_vec(vec![in rt.alloc(); Lit::YES, Lit::NO]?);
    assert!(rt; clause.as_slice() == [Lit::YES, Lit::NO].as_slice());
    assert!(rt; clause.into_vec().len() == 2);
    assert!(rt; formula_keeps_none(rt.alloc()));
    Ok(())
}
