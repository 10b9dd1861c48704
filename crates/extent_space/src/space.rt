//! The holes of an area and its end.

ghost use Rattle.std.specs.Prelude.{◌≡◌, ℕ, ◌+◌, ◌^◌, ◌<◌, ◌≤◌, ◌⊎◌, Some, None, All, IfOk, IfSome, IsTrue, ◌↔◌, OnOk, OnErr, MatchOption};
ghost use Rattle.std.specs.List.{AllPairs};
ghost use Rattle.std.specs.Option.{unwrap_or};
ghost use Rattle.std.specs.Ordering.{nat_cmp};
ghost use Rattle.std.specs.BTreeMap.{get, IsOrdered, IsUnchanged};
ghost use Rattle.b2_base.specs.Failure.{IfFault};
ghost use Rattle.b2_base.specs.declared.extent.Extent.{Extent as Place};
ghost use Rattle.extent_space.specs.Holes.{AddsHole, AreApart, AreHoles, IsCut, IsEndOfFree, IsFreeFrom, IsInNone, front_with};
ghost use Rattle.extent_space.specs.Room.{Apart, GivesBack, HasFree, IsApartFromTaken, IsFilled, IsFree, IsPlaced, IsRoomOf, IsTaken, IsTidy, IsUsed, IsWhole, Takes, extent_for, first_fit, rounded};

use b2_base::{Extent, Memory, Or};
use std::alloc::{AllocError, Global};
use std::collections::BTreeMap;
use std::marker::Model;
use std::ops::Bound;

/// What an extent takes is a multiple of this many bytes.
pub const BLOCK: u64 = 4096;

/// No hole has room, and the end would pass the limit of the area.
#[derive(Clone, Copy, Debug, PartialEq, Eq)]
pub struct AreaEnd;

/// The room of an area, which clauses see as its holes in order, its end, and its limit.
#[derive(Debug, Drop)]
pub struct Space {
    // The start of each hole by its end, so that what is cut off at a hole's front leaves its key.
    holes: BTreeMap<u64, u64>,
    end: u64,
    limit: u64,
}

impl Model for Space {
    ghost use Rattle.std.specs.BTreeMap.{IsOrdered, get};
    ghost use Rattle.std.specs.Ordering.{nat_cmp};
    ghost use Rattle.extent_space.specs.Room.{Room};
    ghost use Rattle.extent_space.specs.Holes.{AreHoles, room_of};

    ghost Value = { Room };

    ghost view = { λ s. room_of s.holes.entries s.end s.limit };

    ghost invariant = { λ s. IsOrdered nat_cmp s.holes
        × AreHoles (get nat_cmp s.holes) s.end s.limit };
}

impl Space {
    /// The space in which these extents are in use, and nothing else.
    pub fn from_used(alloc: Global, used: &[Extent], limit: u64) -> Result<Space, Memory>
        requires places { All (IsPlaced limit) used.now }
        requires apart { AllPairs Apart used.now }
        ensures room { IfOk result (IsRoomOf limit used.now) }
        ensures taken { IfOk result (λ s. All (IsTaken s) used.now) }
    {
        let mut space = Space {
            holes: BTreeMap::new(alloc),
            end: 0,
            limit,
        };
        for e in used {
            if e.len > 0 {
                space.occupy(e.at, e.at + rounded(e.len))?;
            }
        }
        Ok(space)
    }

    /// Where the area ends that is in use.
    pub fn end(&self) -> u64
        ensures value { result ≡ self.now.end }
        ensures tidy { IsTidy self.now }
    {
        self.end
    }

    /// Takes room for a content of this length. One of no bytes stands at 0 and takes none.
    pub fn take(&mut self, len: u64) -> Result<Extent, Or<AreaEnd>>
        ensures place { IfOk result (λ e. extent_for self.old len ≡ Some e) }
        ensures full { IfFault result (λ _. extent_for self.old len ≡ None) }

        // It is in use from then on, and was free: what was in use is apart from it.
        ensures ok { IfOk result (λ e. Takes self.old e self.new) }
        ensures taken { IfOk result (IsTaken self.new) }
        ensures apart { IfOk result (IsApartFromTaken self.old) }
        ensures others { OnOk result ((f : Place) → IsTaken self.old f → IsTaken self.new f) }
        ensures err { OnErr result (self.new ≡ self.old) }
    {
        // What holds of every space is known from here on.
        let _ = &self.holes;
        if len == 0 {
            return Ok(Extent { at: 0, len: 0 });
        }
        // A length that cannot be rounded passes every limit.
        if len > u64::MAX - (BLOCK - 1) {
            return Err(Or::Fault(AreaEnd));
        }
        let room = rounded(len);
        let Some(at) = self.first_fit(room) else {
            return Err(Or::Fault(AreaEnd));
        };
        self.occupy(at, at + room)?;
        Ok(Extent { at, len })
    }

    /// Whether the extent is in use as a whole. One of no bytes always is.
    pub fn is_taken(&self, e: Extent) -> bool
        ensures { IsTrue result ↔ IsTaken self.now e }
    {
        let free = free_from(&self.holes, e.at, self.end);
        if e.len == 0 {
            return true;
        }
        if e.at % BLOCK != 0 {
            return false;
        }
        if free <= e.at {
            return false;
        }
        e.len <= free - e.at
    }

    /// Gives back what was taken.
    pub fn give_back(&mut self, e: Extent) -> Result<(), Memory>
        requires taken { IsTaken self.old e }
        ensures ok { OnOk result (GivesBack self.old e self.new) }
        ensures others { OnOk result ((f : Place) → Apart e f
            → IsTaken self.old f → IsTaken self.new f) }
        ensures err { OnErr result (self.new ≡ self.old) }
    {
        // The holes on both sides become one with it.
        let from = start_of_free(&self.holes, e.at);
        if e.len == 0 {
            return Ok(());
        }
        let to = e.at + rounded(e.len);
        if to == self.end {
            self.holes.remove(&e.at);
            self.end = from;
            return Ok(());
        }
        let last = end_of_free(&self.holes, to);
        self.holes.insert(last, from)?;
        self.holes.remove(&e.at);
        Ok(())
    }

    // Takes the bytes from `from` up to `to`, all of which are free.
    fn occupy(&mut self, from: u64, to: u64) -> Result<(), AllocError>
        requires order { from < to }
        requires whole { IsWhole from × IsWhole to }
        requires within { to ≤ self.old.limit }
        requires free { IsFree self.old from to }
        ensures ok { OnOk result (IsFilled self.old from to self.new) }
        ensures err { OnErr result (self.new ≡ self.old) }
    {
        match hole_at(&self.holes, from) {
            Some(hole) => cut_out(&mut self.holes, hole, from, to)?,
            None => {
                add_hole(&mut self.holes, self.end, from)?;
                self.end = to;
            }
        }
        Ok(())
    }

    // The front of the first hole that has so many bytes, else the end, where the limit allows.
    fn first_fit(&self, room: u64) -> Option<u64>
        ensures value { result ≡ first_fit self.now room }
        ensures free { IfSome result (HasFree self.now room) }
    {
        match front_of(&self.holes, room) {
            Some(from) => Some(from),
            None if room <= self.limit - self.end => Some(self.end),
            None => None,
        }
    }
}

// A length, rounded up to a multiple of 4,096.
fn rounded(len: u64) -> u64
    requires { len + 4095 < 2 ^ 64 }
    ensures { result ≡ rounded len }
{
    (len + (BLOCK - 1)) / BLOCK * BLOCK
}

// The start of the first hole that has so many bytes.
fn front_of(holes: &BTreeMap<u64, u64>, room: u64) -> Option<u64>
    ensures { result ≡ front_with room holes.now.entries }
{
    let (_, from) = holes
        .iter()
        .find(|(to, from)| room <= to.saturating_sub(**from))?;
    Some(*from)
}

// The end and the start of the hole in which the byte lies.
fn hole_at(holes: &BTreeMap<u64, u64>, at: u64) -> Option<(u64, u64)>
    requires { AreApart (get nat_cmp holes.now) }
    ensures { MatchOption result
        (IsInNone (get nat_cmp holes.now) at)
        (λ h. (get nat_cmp holes.now h.0 ≡ Some h.1) × (h.1 ≤ at) × (at < h.0)) }
{
    let (to, from) = holes.range((Bound::Excluded(at), Bound::Unbounded)).next()?;
    if *from <= at {
        Some((*to, *from))
    } else {
        None
    }
}

// The start of the hole that ends at this byte, else the byte itself.
fn start_of_free(holes: &BTreeMap<u64, u64>, at: u64) -> u64
    ensures { result ≡ unwrap_or (get nat_cmp holes.now at) at }
{
    holes.get(&at).copied().unwrap_or(at)
}

// The end of the hole in which the byte lies, else the byte itself.
fn end_of_free(holes: &BTreeMap<u64, u64>, at: u64) -> u64
    requires { AreApart (get nat_cmp holes.now) }
    ensures { IsEndOfFree (get nat_cmp holes.now) at result }
{
    match hole_at(holes, at) {
        Some((to, _)) => to,
        None => at,
    }
}

// The first byte from this one on that lies in a hole, else the end.
fn free_from(holes: &BTreeMap<u64, u64>, at: u64, end: u64) -> u64
    requires { (limit : ℕ) × AreHoles (get nat_cmp holes.now) end limit }
    ensures { IsFreeFrom (get nat_cmp holes.now) at end result }
{
    match holes.range((Bound::Excluded(at), Bound::Unbounded)).next() {
        Some((_, from)) if *from < at => at,
        Some((_, from)) => *from,
        None => end,
    }
}

// Adds the hole from `from` up to `to`, where that has a byte.
fn add_hole(holes: &mut BTreeMap<u64, u64>, from: u64, to: u64) -> Result<(), AllocError>
    requires ordered { IsOrdered nat_cmp holes.old }
    ensures ordered { IsOrdered nat_cmp holes.new }
    ensures ok { OnOk result (AddsHole (get nat_cmp holes.old) (get nat_cmp holes.new) from to) }
    ensures err { OnErr result (IsUnchanged holes.old holes.new) }
{
    if from < to {
        holes.insert(to, from)?;
    }
    Ok(())
}

// Cuts the bytes from `from` up to `to` out of a hole that has them.
fn cut_out(
    holes: &mut BTreeMap<u64, u64>,
    hole: (u64, u64),
    from: u64,
    to: u64,
) -> Result<(), AllocError>
    requires ordered { IsOrdered nat_cmp holes.old }
    requires hole { get nat_cmp holes.old hole.0 ≡ Some hole.1 }
    requires inside { (hole.1 ≤ from) × (from < to) × (to ≤ hole.0) }
    ensures ordered { IsOrdered nat_cmp holes.new }
    ensures ok { OnOk result
        (IsCut (get nat_cmp holes.old) (get nat_cmp holes.new) hole.1 hole.0 from to) }
    ensures err { OnErr result (IsUnchanged holes.old holes.new) }
{
    let (last, first) = hole;
    add_hole(holes, first, from)?;
    if to < last {
        holes.insert(last, to)?;
    } else {
        holes.remove(&last);
    }
    Ok(())
}
