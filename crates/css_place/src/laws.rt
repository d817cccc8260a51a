//! What holds of lengths, holes and changes: each function's clause is a law.
ghost use Rattle.std.specs.Prelude.{◌≡◌, ◌≢◌, ◌<◌, ◌≤◌, ◌%◌, ◌↔◌, ◌⊎◌, ℕ, length, Contains};
ghost use Rattle.css_place.specs.declared.stretch.Stretch.{Stretch};
ghost use Rattle.css_place.specs.Places.{Store, rounded, IsPlaced};
ghost use Rattle.css_place.specs.Holes.{IsIn, IsFree, HasRoom, IsFirstFit, IsFull};
ghost use Rattle.css_place.specs.Changes.{Adds, Removes};

/// A rounded length is the least multiple of 128 at or above the length.
pub fn rounded_is_least()
    ensures multiple { (bytes : ℕ) → rounded bytes % 128 ≡ 0 }
    ensures above { (bytes : ℕ) → bytes ≤ rounded bytes }
    ensures least { (bytes other : ℕ) → other % 128 ≡ 0 → bytes ≤ other → rounded bytes ≤ other }
{}

/// An address is in one place out at most.
pub fn places_are_disjoint()
    ensures { (store : Store) (s t : Stretch) (address : ℕ) → IsPlaced store
        → Contains store.out s → Contains store.out t → IsIn address s → IsIn address t → s ≡ t }
{}

/// The first hole that holds a length begins at the lowest address from which so many are free.
pub fn first_fit_is_lowest()
    ensures { (store : Store) (bytes start other : ℕ)
        → IsFirstFit store bytes start → HasRoom store other bytes → start ≤ other }
{}

/// Where a placer with fewer than 96 places out is full for a length, nowhere are so many addresses in a row free.
pub fn full_has_no_room()
    ensures { (store : Store) (bytes start : ℕ)
        → IsFull store bytes → length store.out < 96 → HasRoom store start bytes → ⊥ }
{}

/// After a place is added, those out are the old ones and this one.
pub fn place_joins_those_out()
    ensures { (old new : Store) (s : Stretch) → Adds old new s
        → (t : Stretch) → Contains new.out t ↔ (Contains old.out t ⊎ (t ≡ s)) }
{}

/// After a release, those out are the old ones but this one. So a place that is added wasn't out before.
pub fn release_leaves_the_others()
    ensures { (old new : Store) (s : Stretch) → IsPlaced old → Removes old new s
        → (t : Stretch) → Contains new.out t ↔ (Contains old.out t × t ≢ s) }
{}

/// A place takes its own addresses and no others.
pub fn place_takes_its_addresses()
    ensures { (old new : Store) (s : Stretch) → Adds old new s
        → (address : ℕ) → IsFree new address ↔ (IsFree old address × ¬ IsIn address s) }
{}

/// A release frees the place's addresses and no others. So what was free on both sides is one hole with them.
pub fn release_frees_its_addresses()
    ensures { (old new : Store) (s : Stretch) → IsPlaced old → Removes old new s
        → (address : ℕ) → IsFree new address ↔ (IsFree old address ⊎ IsIn address s) }
{}

/// After a release there is a hole for each length up to that of the place.
pub fn release_makes_room()
    ensures { (old new : Store) (s : Stretch) (bytes : ℕ) → IsPlaced old → Removes old new s
        → bytes ≤ s.length → IsFull new bytes → ⊥ }
{}
