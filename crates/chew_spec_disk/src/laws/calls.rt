//! Laws of calls and of moments, of any disks.

ghost use Rattle.std.specs.Prelude.{◌≡◌, ◌≢◌, ◌⊎◌, ℕ, ◌+◌, ◌<◌, ◌≤◌, List, length, slice_index};
ghost use Rattle.chew_spec_disk.specs.Disk.{DiskState, IsDisk, Later, Passes, Stays, last_moment};
ghost use Rattle.chew_spec_disk.specs.Moments.{AlwaysLeft, AlwaysMightLeave, NowLeaves, NowMayLeave};
ghost use Rattle.chew_spec_disk.specs.Sync.{Syncs};
ghost use Rattle.chew_spec_disk.specs.Write.{Writes};

/// Any three disks, and any property of what a crash leaves, of which a law speaks.
pub trait AnyDisks {
    ghost first: { DiskState };

    ghost middle: { DiskState };

    ghost last: { DiskState };

    ghost property: { List ℕ → List ℕ → Type 0 };
}

/// What crashes at earlier moments might have left never changes, and stretches of time one after the
/// other are one.
pub fn earlier_moments_stay<D: AnyDisks>()
    ensures same { Later D.first D.first }
    ensures chain { Later D.first D.middle → Later D.middle D.last → Later D.first D.last }
    ensures past { (moment slot : ℕ) (list : List ℕ) → Later D.first D.last → D.last.moment < last_moment →
        moment ≤ D.first.moment → D.last.might_have_left moment slot list → D.first.might_have_left moment slot list }
{}

/// What holds of all moments so far and of the moment now holds of all, and what holds of all holds of the
/// moment now.
pub fn moments_add_up<D: AnyDisks>()
    ensures here { IsDisk D.first → NowLeaves D.first D.property → AlwaysLeft D.first.moment D.first D.property }
    ensures more { (from : ℕ) → AlwaysLeft from D.first D.property → Passes D.first D.middle → IsDisk D.middle →
        NowLeaves D.middle D.property → AlwaysLeft from D.middle D.property }
    ensures now { (from : ℕ) → IsDisk D.first → D.first.moment < last_moment → from ≤ D.first.moment →
        AlwaysLeft from D.first D.property → NowLeaves D.first D.property }
    ensures reads { IsDisk D.first → D.property (D.first.reads 0) (D.first.reads 1) → NowMayLeave D.first D.property }
{}

/// What might have been left so far and may be left now might have been left at every moment.
pub fn chances_add_up<D: AnyDisks>()
    ensures here { IsDisk D.first → NowMayLeave D.first D.property → AlwaysMightLeave D.first.moment D.first.moment D.first D.property }
    ensures later { (from until : ℕ) → AlwaysMightLeave from until D.first D.property → until ≤ D.first.moment → Passes D.first D.middle →
        AlwaysMightLeave from until D.middle D.property }
    ensures more { (from : ℕ) → AlwaysMightLeave from D.first.moment D.first D.property → Passes D.first D.middle → IsDisk D.middle →
        NowMayLeave D.middle D.property → AlwaysMightLeave from D.middle.moment D.middle D.property }
    ensures now { (from : ℕ) → IsDisk D.first → D.first.moment < last_moment → from ≤ D.first.moment →
        AlwaysMightLeave from D.first.moment D.first D.property → NowMayLeave D.first D.property }
{}

/// What reads give may be left after each call, if it might be left before.
pub fn reads_may_be_left<D: AnyDisks>()
    ensures stays { IsDisk D.first → Stays D.first D.last → (slot : ℕ) → D.last.may_leave slot (D.last.reads slot) }
    ensures syncs { (synced : ℕ) → IsDisk D.first → Syncs synced D.first D.last → (slot : ℕ) → D.last.may_leave slot (D.last.reads slot) }
    ensures writes { (to at n : ℕ) → IsDisk D.first → Writes to at n D.first D.last → (slot : ℕ) → D.last.may_leave slot (D.last.reads slot) }
{}

/// After a sync that was done a crash leaves what reads give, and nothing else.
pub fn synced_is_all<D: AnyDisks>()
    ensures all { (slot : ℕ) (list : List ℕ) → Syncs slot D.first D.last → D.last.may_leave slot list → list ≡ D.last.reads slot }
    ensures same { (slot : ℕ) → Syncs slot D.first D.last → D.last.reads slot ≡ D.first.reads slot }
{}

/// What a crash leaves after a write differs from what it might have left before in the range and past
/// the old end alone, and the other slot is untouched.
pub fn torn_in_the_range<D: AnyDisks>()
    ensures same { (slot at n : ℕ) (list : List ℕ) → Writes slot at n D.first D.last → D.last.may_leave slot list →
        (old : List ℕ) × D.first.may_leave slot old
        × ((k : ℕ) → k < length old → (k < at) ⊎ (at + n ≤ k) → slice_index list k ≡ slice_index old k) }
    ensures other { (slot at n other : ℕ) (list : List ℕ) → Writes slot at n D.first D.last → other ≢ slot →
        D.last.may_leave other list → D.first.may_leave other list }
    ensures unharmed { (slot at n : ℕ) (list : List ℕ) → Writes slot at n D.first D.last → D.first.may_leave slot list →
        D.last.may_leave slot list }
{}
