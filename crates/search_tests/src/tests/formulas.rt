//! Formulas of small circuits.

ghost use Rattle.std.specs.Prelude.{◌≢◌, ◌<◌, length, IfOk};
ghost use Rattle.gate_model.specs.Makers.{no};
ghost use Rattle.gate_net.specs.Trees.{signed_of};

use clause_form::{clauses, gate_clauses, refutation};
use gate_net::{Clause, Gate, Lit, Net};
use std::alloc::{AllocError, Global};
use std::test::Fail;

/// How many gates of each kind a net has: And, and Xor.
fn kinds(net: &Net) -> (u64, u64) {
    let mut ands = 0;
    let mut xors = 0;
    for name in 0..net.len() {
        match net.gate(name) {
            Gate::And(..) => ands += 1,
            Gate::Xor(..) => xors += 1,
            Gate::Yes | Gate::Bit { .. } => {}
        }
    }
    (ands, xors)
}

/// The sizes of the formula of a root and of its gates' formula.
fn sizes(alloc: Global, net: &Net, root: Lit) -> Result<(usize, usize), AllocError>
    requires belongs { root.name < length net.now }
    requires possible { signed_of net.now root ≢ no }
{
    let whole = clauses(alloc, net, &[root])?;
    let gates = gate_clauses(alloc, net, &[root])?;
    Ok((
        whole.clauses.as_slice().len(),
        gates.clauses.as_slice().len(),
    ))
}

/// Where `all` is true and the two bits are equal.
fn and_equal(net: &mut Net, all: Lit, a: Lit, b: Lit) -> Result<Lit, AllocError>
    requires all { all.name < length net.old }
    requires first { a.name < length net.old }
    requires second { b.name < length net.old }
    ensures below { IfOk result (λ l. l.name < length net.new) }
{
    let apart = net.xor(a, b)?;
    net.and(all, apart.not())
}

/// Whether the formulas of a root that may be true have these sizes.
fn has_sizes(
    alloc: Global,
    net: &Net,
    root: Lit,
    expected: (usize, usize),
) -> Result<bool, AllocError>
    requires belongs { root.name < length net.now }
{
    if root == Lit::NO {
        return Ok(false);
    }
    let _net = net.len();
    Ok(sizes(alloc, net, root)? == expected)
}

/// Where the first byte of the input is a constant.
fn byte_is(net: &mut Net, constant: u32) -> Result<Lit, AllocError>
    requires { 0 < length net.old }
    ensures { IfOk result (λ l. l.name < length net.new) }
{
    let mut equal = Lit::YES;
    for bit in 0..8 {
        let first = net.input_bit(0, bit)?;
        let second = if constant >> bit & 1 == 1 {
            Lit::YES
        } else {
            Lit::NO
        };
        let _net = net.len();
        equal = and_equal(net, equal, first, second)?;
    }
    Ok(equal)
}

#[test]
fn a_byte_that_equals_a_constant(rt: HostRuntime) -> Result<(), Fail> {
    let mut net = Net::new(rt.alloc())?;
    let equal = byte_is(&mut net, 0x41)?;
    assert!(rt; kinds(&net) == (7, 0));
    assert!(rt; has_sizes(rt.alloc(), &net, equal, (22, 21))?);
    Ok(())
}

/// Where the first two bytes of the input are equal.
fn bytes_are_equal(net: &mut Net) -> Result<Lit, AllocError>
    requires { 0 < length net.old }
    ensures { IfOk result (λ l. l.name < length net.new) }
{
    let mut equal = Lit::YES;
    for bit in 0..8 {
        let first = net.input_bit(0, bit)?;
        let second = net.input_bit(1, bit)?;
        equal = and_equal(net, equal, first, second)?;
    }
    Ok(equal)
}

#[test]
fn two_bytes_that_are_equal(rt: HostRuntime) -> Result<(), Fail> {
    let mut net = Net::new(rt.alloc())?;
    let equal = bytes_are_equal(&mut net)?;
    assert!(rt; kinds(&net) == (7, 8));
    assert!(rt; has_sizes(rt.alloc(), &net, equal, (54, 53))?);
    Ok(())
}

#[test]
fn a_root_that_is_yes_gives_no_clause(rt: HostRuntime) -> Result<(), Fail> {
    let net = Net::new(rt.alloc())?;
    assert!(rt; has_sizes(rt.alloc(), &net, Lit::YES, (0, 0))?);
    Ok(())
}

/// A tree of 100,000 gates under each other.
fn deep_tree(net: &mut Net) -> Result<Lit, AllocError>
    ensures { IfOk result (λ l. l.name < length net.new) }
{
    let mut deep = net.input_bit(0, 0)?;
    let second = net.input_bit(1, 0)?;
    for _ in 0..100_000 {
        deep = net.xor(deep, second)?;
    }
    Ok(deep)
}

#[test]
fn a_deep_tree_has_four_clauses_a_gate(rt: HostRuntime) -> Result<(), Fail> {
    let mut net = Net::new(rt.alloc())?;
    let deep = deep_tree(&mut net)?;
    assert!(rt; net.len() == 100_003);
    assert!(rt; has_sizes(rt.alloc(), &net, deep, (400_001, 400_000))?);
    Ok(())
}

/// Whether these are the clauses of one And, and then these three.
fn ends_so(clauses: &[Clause], ends: [&[Lit]; 3]) -> bool {
    if clauses.len() != 6 {
        return false;
    }
    for i in 0..3 {
        if clauses[3 + i].as_slice() != ends[i] {
            return false;
        }
    }
    true
}

/// Whether the refutation of two fixed literals' And has the clauses of that gate, each of the two, and that it is false.
fn is_refuted(alloc: Global, net: &mut Net, a: Lit, b: Lit) -> Result<bool, AllocError>
    requires first { a.name < length net.old }
    requires second { b.name < length net.old }
{
    let both = net.and(a, b)?;
    if both == Lit::NO || both == Lit::YES {
        return Ok(false);
    }
    let _net = net.len();
    let formula = refutation(alloc, net, &[both], &[a, b])?;
    Ok(ends_so(formula.clauses.as_slice(), [&[a], &[b], &[both.not()]]))
}

#[test]
fn a_refutation_of_two_fixed_bits(rt: HostRuntime) -> Result<(), Fail> {
    let mut net = Net::new(rt.alloc())?;
    let first = net.input_bit(0, 0)?;
    let second = net.input_bit(1, 0)?;
    assert!(rt; is_refuted(rt.alloc(), &mut net, first, second.not())?);
    Ok(())
}
