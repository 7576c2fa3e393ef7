//! A group whose conditions tie its bytes together, as gates.

ghost use Rattle.std.specs.Prelude.{◌≡◌, ◌≢◌, ◌*◌, ◌^◌, ◌<◌, ◌≤◌, ℕ, List, length, slice_index, slice_index_or, All, IfOk, Err};
ghost use Rattle.term_model.specs.Conditions.{Hold};
ghost use Rattle.term_model.specs.Words.{AreBytes};
ghost use Rattle.term_arena.specs.Trees.{trees_of};
ghost use Rattle.group_model.specs.Group.{IsGroup, HasAt, IsGroupFirst};
ghost use Rattle.byte_sets.specs.ByteSet.{has};
ghost use Rattle.byte_sets.specs.declared.ByteSet.{ByteSet};
ghost use Rattle.wide_laws.specs.Roots.{conflicts_of, wide_values};
ghost use Rattle.wide_solve.specs.declared.error.WideError.TheVariants.{Spent};

use crate::bytes::Bytes;
use crate::error::{Wide, WideError};
use crate::fixed::fixed_bits;
use crate::gates::{bits_of, roots_of};
use crate::order::{bytes_at, signed_bits};
use crate::search::first_bits;
use crate::sets::agreeing_sets;
use crate::values::bytes_of;
use byte_sets::Sets;
use clause_solver::SolveError;
use gate_net::{Lit, Net};
use group_model::Group;
use no_memory::NoMemory;
use std::alloc::Global;
use std::marker::Model;
use term_arena::Arena;

/// A group, with a net of its conditions' gates: the root of each condition, and the bits of each
/// place, the highest first. It is made once for the group's first bytes and for its sets.
#[derive(Drop)]
pub struct WideGroup<'a> {
    arena: &'a Arena,
    group: &'a Group,
    net: Net,
    roots: Vec<Lit>,
    bits: Vec<Lit>,
}

impl<'a> Model for WideGroup<'a> {
    ghost use Rattle.wide_solve.specs.Tied.{Tied, tied, tied_code};
    ghost use Rattle.wide_solve.specs.Gates.{IsTied};

    ghost Value = { Tied };

    ghost coded = { tied_code };

    ghost view = { λ w. tied w.arena.now w.group.now.places w.group.now.conditions };

    ghost invariant = { λ w. IsTied (tied w.arena.now w.group.now.places w.group.now.conditions) w.net w.roots.items w.bits.items };
}

impl<'a> WideGroup<'a> {
    /// Makes the gates of a group's conditions.
    pub fn new(alloc: Global, arena: &'a Arena, group: &'a Group) -> Result<WideGroup<'a>, NoMemory>
        requires group { IsGroup arena.now group.now.places group.now.conditions }
        requires some { 0 < length group.now.places }
        ensures places { IfOk result (λ wide. wide.places ≡ group.now.places) }
        ensures conditions { IfOk result (λ wide. wide.conditions ≡ trees_of arena.now group.now.conditions) }
    {
        let _arena = arena.len();
        let mut net = Net::new(alloc)?;
        let roots = roots_of(alloc, arena, group.conditions.as_slice(), &mut net)?;
        let bits = bits_of(alloc, group.places.as_slice(), &mut net)?;
        Ok(WideGroup {
            arena,
            group,
            net,
            roots,
            bits,
        })
    }

    /// The group's first bytes under a mask: those that meet its conditions and come before all
    /// others that do. Some bytes have to meet them. `Spent` comes where the search counts `budget`
    /// conflicts, which it never does of a budget of as many as the places have choices of bytes.
    pub fn first(&self, alloc: Global, mask: &[u8], budget: u32) -> Result<Wide, WideError>
        requires possible { (y : List ℕ) × AreBytes y × Hold self.now.conditions y }
        requires masked { All (λ i. i < length mask.now) self.now.places }
        requires budget { 0 < budget }
        ensures first { IfOk result (λ wide. IsGroupFirst mask.now self.now.places self.now.conditions wide.bytes) }
        ensures count { IfOk result (λ wide. wide.conflicts ≡ conflicts_of mask.now self.now.conditions self.now.places) }
        ensures below { IfOk result (λ wide. wide.conflicts < budget) }
        ensures spent { (first width : ℕ) → result ≡ Err (Spent first width) →
            (budget ≤ conflicts_of mask.now self.now.conditions self.now.places)
            × (first ≡ slice_index self.now.places 0) × (width ≡ length self.now.places) }
        ensures enough { 2 ^ (8 * length self.now.places) ≤ budget → (first width : ℕ) → result ≢ Err (Spent first width) }
    {
        let _net = self.net.len();
        let places = self.group.places.as_slice();
        let own = bytes_at(alloc, places, mask)?;
        let order = signed_bits(alloc, self.bits.as_slice(), own.as_slice())?;
        match first_bits(
            alloc,
            &self.net,
            self.roots.as_slice(),
            order.as_slice(),
            budget,
        ) {
            Ok(found) => {
                let bytes = bytes_of(alloc, found.values.as_slice(), own.as_slice())?;
                Ok(Wide {
                    bytes: Bytes::from_vec(bytes),
                    conflicts: found.conflicts,
                })
            }
            Err(SolveError::Spent) => Err(WideError::Spent {
                first: places[0],
                width: places.len() as u32,
            }),
            Err(SolveError::NoMemory) => Err(WideError::NoMemory),
        }
    }

    /// The values that each byte of the group may take, in the order of its places. `first` has a
    /// byte for each place, and these meet the group's conditions. The bits of the places are freed
    /// one after another, from the highest bit of the first place, where the others force the
    /// conditions; a byte may have the values that agree with its own at its bits that stay fixed.
    pub fn sets(&self, alloc: Global, first: &[u8]) -> Result<Sets, NoMemory>
        requires long { length first.now ≡ length self.now.places }
        requires meets { (y : List ℕ) × AreBytes y × HasAt self.now.places first.now y × Hold self.now.conditions y }
        ensures count { IfOk result (λ sets. length sets ≡ length self.now.places) }
        ensures sets { IfOk result (λ sets. (y : List ℕ) → HasAt self.now.places first.now y →
            (k : ℕ) (d : ByteSet) → k < length self.now.places →
            has (slice_index_or sets k d) ≡ wide_values self.now.conditions y self.now.places (slice_index self.now.places k)) }
    {
        let _net = self.net.len();
        let order = signed_bits(alloc, self.bits.as_slice(), first)?;
        let fixed = fixed_bits(alloc, &self.net, self.roots.as_slice(), order.as_slice())?;
        let sets = agreeing_sets(alloc, fixed.as_slice(), order.as_slice(), first)?;
        Ok(Sets::from_vec(sets))
    }
}
