//! From decisions to the trail.

ghost use Rattle.std.specs.Prelude.{◌≡◌, ◌<◌, ◌≤◌, ℕ, [], List, length, true, false, Contains, take, slice_index, IfSome};
ghost use Rattle.gate_net.specs.declared.literals.Lit.{Lit};
ghost use Rattle.gate_net.specs.Lits.{AreNamed};
ghost use Rattle.search_model.specs.Literals.{named};
ghost use Rattle.search_model.specs.Closure.{IsConflict};
ghost use Rattle.unit_close.specs.Values.{IsClosure};
ghost use Rattle.unit_close.specs.Literals.{lit_at};
ghost use Rattle.unit_close.specs.Path.{IsPath, end_of};
ghost use Rattle.unit_close.specs.Work.{IsWorking, IsRefuted, HasSameClauses};
ghost use Rattle.unit_close.specs.Standing.{IsReady, IsDecidedBy};
ghost use Rattle.unit_close.specs.declared.closed.Closed.{Closed};

use crate::closed::Closed;
use crate::trail::Trail;
use crate::visit::propagate;
use crate::watches::Watches;
use gate_net::Lit;

/// Puts in the literal of a clause that has a single one.
fn put_unit(trail: &mut Trail, watches: &Watches, l: Lit) -> Closed
    requires unit { Contains watches.now.units l }
    requires name { l.name < length trail.old.values }
    requires working { IsWorking watches.now trail.old }
    ensures working { IsWorking watches.now trail.new }
    ensures marks { trail.new.marks ≡ trail.old.marks }
    ensures names { length trail.new.values ≡ length trail.old.values }
    ensures grown { (m : Lit) → Contains trail.old.literals m → Contains trail.new.literals m }
    ensures set { result ≡ Closed.Set → Contains trail.new.literals l }
    ensures refuted { result ≡ Closed.Conflict → IsRefuted watches.now.clauses trail.new.literals trail.new.marks }
{
    if trail.is_false(l) {
        return Closed::Conflict;
    }
    if trail.is_true(l) {
        return Closed::Set;
    }
    trail.push(l);
    Closed::Set
}

/// Puts in the literals of the clauses that have a single one.
fn put_units(trail: &mut Trail, watches: &Watches) -> Closed
    requires working { IsWorking watches.now trail.old }
    requires fresh { trail.old.marks ≡ [] }
    ensures working { IsWorking watches.now trail.new }
    ensures fresh { trail.new.marks ≡ [] }
    ensures names { length trail.new.values ≡ length trail.old.values }
    ensures units { result ≡ Closed.Set → (l : Lit) → Contains watches.now.units l → Contains trail.new.literals l }
    ensures refuted { result ≡ Closed.Conflict → IsRefuted watches.now.clauses trail.new.literals trail.new.marks }
{
    let units = watches.units();
    for l in units {
        match put_unit(trail, watches, *l) {
            Closed::Set => {}
            Closed::Conflict => return Closed::Conflict,
        }
    }
    Closed::Set
}

/// Puts in what holds without a decision.
fn start(trail: &mut Trail, watches: &mut Watches) -> Closed
    requires working { IsWorking watches.old trail.old }
    requires idle { watches.old.loose ≡ [] }
    requires fresh { trail.old.marks ≡ [] }
    ensures working { IsWorking watches.new trail.new }
    ensures idle { watches.new.loose ≡ [] }
    ensures same { HasSameClauses watches.old watches.new }
    ensures fresh { trail.new.marks ≡ [] }
    ensures names { length trail.new.values ≡ length trail.old.values }
    ensures ready { result ≡ Closed.Set → IsReady watches.new trail.new }
    ensures conflict { result ≡ Closed.Conflict → (ds : List Lit) → IsConflict named watches.new.clauses ds }
{
    match put_units(trail, watches) {
        Closed::Set => propagate(trail, watches, 0),
        Closed::Conflict => Closed::Conflict,
    }
}

/// Puts in what holds without a decision, where it isn't there yet. On a conflict nothing is in.
pub fn make_ready(trail: &mut Trail, watches: &mut Watches, is_started: bool) -> Closed
    requires working { IsWorking watches.old trail.old }
    requires idle { watches.old.loose ≡ [] }
    requires ready { is_started ≡ true → IsReady watches.old trail.old }
    requires fresh { is_started ≡ false → trail.old.marks ≡ [] }
    ensures working { IsWorking watches.new trail.new }
    ensures idle { watches.new.loose ≡ [] }
    ensures same { HasSameClauses watches.old watches.new }
    ensures names { length trail.new.values ≡ length trail.old.values }
    ensures ready { result ≡ Closed.Set → IsReady watches.new trail.new }
    ensures empty { result ≡ Closed.Conflict → trail.new.literals ≡ [] }
    ensures fresh { result ≡ Closed.Conflict → trail.new.marks ≡ [] }
    ensures conflict { result ≡ Closed.Conflict → (ds : List Lit) → IsConflict named watches.old.clauses ds }
{
    if is_started {
        return Closed::Set;
    }
    match start(trail, watches) {
        Closed::Set => Closed::Set,
        Closed::Conflict => {
            trail.clear();
            Closed::Conflict
        }
    }
}

/// How much of the trail new decisions keep.
#[derive(Clone, Copy)]
pub struct Kept {
    /// How many of the decisions are in it.
    pub decisions: usize,
    /// How many of its levels are kept.
    pub levels: usize,
}

/// How many levels are kept with one decision more, where the trail's first `levels` ones are. None where this
/// decision isn't in.
fn kept_levels(trail: &Trail, d: Lit, levels: usize) -> Option<usize>
    requires name { d.name < length trail.now.values }
    requires levels { levels ≤ length trail.now.marks }
    ensures levels { IfSome result (λ n. (levels ≤ n) × (n ≤ length trail.now.marks)) }
    ensures kept { IfSome result (λ n. Contains (take (end_of trail.now n) trail.now.literals) d) }
    ensures longer { IfSome result (λ n. end_of trail.now levels ≤ end_of trail.now n) }
    ensures decided { IfSome result (λ n. (i : ℕ) → levels ≤ i → i < n → lit_at trail.now.literals (slice_index trail.now.marks i) ≡ d) }
{
    let _ = trail.levels();
    if trail.is_decision(d, levels) {
        return Some(levels + 1);
    }
    if trail.came_before(d, levels) {
        return Some(levels);
    }
    None
}

/// What the trail shares with new decisions.
fn shared(trail: &Trail, decisions: &[Lit]) -> Kept
    requires { AreNamed (length trail.now.values) decisions.now }
    ensures path { IsPath trail.now }
    ensures levels { result.levels ≤ length trail.now.marks }
    ensures decisions { result.decisions ≤ length decisions.now }
    ensures kept { (d : Lit) → Contains (take result.decisions decisions.now) d →
        Contains (take (end_of trail.now result.levels) trail.now.literals) d }
    ensures decided { (i : ℕ) → i < result.levels → Contains decisions.now (lit_at trail.now.literals (slice_index trail.now.marks i)) }
{
    let _ = trail.levels();
    let mut levels = 0;
    for (i, d) in decisions.iter().enumerate() {
        match kept_levels(trail, *d, levels) {
            Some(n) => levels = n,
            None => {
                return Kept {
                    decisions: i,
                    levels,
                };
            }
        }
    }
    Kept {
        decisions: decisions.len(),
        levels,
    }
}

/// Takes back all levels but the first ones.
fn rewind(trail: &mut Trail, watches: &Watches, levels: usize)
    requires working { IsWorking watches.now trail.old }
    requires ready { IsReady watches.now trail.old }
    requires levels { levels ≤ length trail.old.marks }
    ensures working { IsWorking watches.now trail.new }
    ensures ready { IsReady watches.now trail.new }
    ensures literals { trail.new.literals ≡ take (end_of trail.old levels) trail.old.literals }
    ensures marks { trail.new.marks ≡ take levels trail.old.marks }
    ensures names { length trail.new.values ≡ length trail.old.values }
{
    if levels < trail.levels() {
        trail.cut(levels);
    }
}

/// Puts in one decision, and what follows from it.
fn decide(trail: &mut Trail, watches: &mut Watches, d: Lit) -> Closed
    requires name { d.name < length trail.old.values }
    requires working { IsWorking watches.old trail.old }
    requires idle { watches.old.loose ≡ [] }
    requires ready { IsReady watches.old trail.old }
    ensures working { IsWorking watches.new trail.new }
    ensures idle { watches.new.loose ≡ [] }
    ensures same { HasSameClauses watches.old watches.new }
    ensures ready { IsReady watches.new trail.new }
    ensures names { length trail.new.values ≡ length trail.old.values }
    ensures grown { (l : Lit) → Contains trail.old.literals l → Contains trail.new.literals l }
    ensures decided { (ds : List Lit) → Contains ds d → IsDecidedBy trail.old ds → IsDecidedBy trail.new ds }
    ensures set { result ≡ Closed.Set → Contains trail.new.literals d }
    ensures conflict { result ≡ Closed.Conflict → (ds : List Lit) → Contains ds d → IsDecidedBy trail.old ds →
        IsConflict named watches.old.clauses ds }
{
    if trail.is_false(d) {
        return Closed::Conflict;
    }
    if trail.is_true(d) {
        return Closed::Set;
    }
    let level = trail.levels();
    let from = trail.len();
    trail.decide(d);
    match propagate(trail, watches, from) {
        Closed::Set => Closed::Set,
        Closed::Conflict => {
            trail.cut(level);
            Closed::Conflict
        }
    }
}

/// Puts in the decisions in turn.
fn decide_all(trail: &mut Trail, watches: &mut Watches, decisions: &[Lit]) -> Closed
    requires names { AreNamed (length trail.old.values) decisions.now }
    requires working { IsWorking watches.old trail.old }
    requires idle { watches.old.loose ≡ [] }
    requires ready { IsReady watches.old trail.old }
    ensures working { IsWorking watches.new trail.new }
    ensures idle { watches.new.loose ≡ [] }
    ensures same { HasSameClauses watches.old watches.new }
    ensures ready { IsReady watches.new trail.new }
    ensures names { length trail.new.values ≡ length trail.old.values }
    ensures grown { (l : Lit) → Contains trail.old.literals l → Contains trail.new.literals l }
    ensures decided { (ds : List Lit) → ((d : Lit) → Contains decisions.now d → Contains ds d) → IsDecidedBy trail.old ds → IsDecidedBy trail.new ds }
    ensures set { result ≡ Closed.Set → (d : Lit) → Contains decisions.now d → Contains trail.new.literals d }
    ensures conflict { result ≡ Closed.Conflict → (ds : List Lit) → ((d : Lit) → Contains decisions.now d → Contains ds d) →
        IsDecidedBy trail.old ds → IsConflict named watches.old.clauses ds }
{
    for d in decisions {
        match decide(trail, watches, *d) {
            Closed::Set => {}
            Closed::Conflict => return Closed::Conflict,
        }
    }
    Closed::Set
}

/// The closure of the clauses and the decisions, on a trail that has what holds without a decision.
pub fn close_trail(trail: &mut Trail, watches: &mut Watches, decisions: &[Lit]) -> Closed
    requires names { AreNamed (length trail.old.values) decisions.now }
    requires working { IsWorking watches.old trail.old }
    requires idle { watches.old.loose ≡ [] }
    requires ready { IsReady watches.old trail.old }
    ensures working { IsWorking watches.new trail.new }
    ensures idle { watches.new.loose ≡ [] }
    ensures same { HasSameClauses watches.old watches.new }
    ensures ready { IsReady watches.new trail.new }
    ensures names { length trail.new.values ≡ length trail.old.values }
    ensures closed { result ≡ Closed.Set → IsClosure watches.old.clauses decisions.now trail.new.values }
    ensures conflict { result ≡ Closed.Conflict → IsConflict named watches.old.clauses decisions.now }
{
    let kept = shared(trail, decisions);
    rewind(trail, watches, kept.levels);
    let closed = decide_all(trail, watches, &decisions[kept.decisions..]);
    let _ = trail.len();
    closed
}
