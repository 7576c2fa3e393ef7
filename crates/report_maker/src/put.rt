//! Values put at the places of a group.

ghost use Rattle.std.specs.Prelude.{◌≡◌, ◌<◌, ℕ, length, slice_index, slice_index_or, All, Contains};
ghost use Rattle.group_model.specs.Group.{IsAscending};

/// Puts the items at the places, in their order.
pub fn put<T: Copy>(places: &[u32], items: &[T], list: &mut [T])
    requires ascending { IsAscending places.now }
    requires each { length items.now ≡ length places.now }
    requires within { All (λ i. i < length list.old) places.now }
    ensures has { (k : ℕ) (d : T) → k < length places.now →
        slice_index_or list.new (slice_index places.now k) d ≡ slice_index_or items.now k d }
    ensures left { (i : ℕ) (d : T) → (Contains places.now i → ⊥) →
        slice_index_or list.new i d ≡ slice_index_or list.old i d }
{
    for (k, place) in places.iter().enumerate() {
        list[*place as usize] = items[k];
    }
}
