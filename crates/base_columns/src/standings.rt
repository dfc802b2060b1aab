//! The standings of a batch's rows: mostly all at True.
ghost use Rattle.std.specs.Prelude.{◌≡◌, ◌<◌, ◌≤◌, ◌++◌, ◌∷◌, [], IfOk, OnErr, OnOk, IsTrue};
ghost use Rattle.std.specs.Prelude.{length, take, slice_index_or, replicate, if◌then◌else◌};
ghost use Rattle.std.specs.List.{All};
ghost use Rattle.base_value.specs.declared.truth.Standing.TheVariants.{AtTrue as True};
ghost use Rattle.base_columns.specs.Lists.{gathered, AreBelow};
ghost use Rattle.base_columns.specs.Standings.{standings_of, lesser_standings};

use crate::places::copies;
use base_value::Standing;
use std::alloc::{AllocError, Global};
use std::marker::Model;

// Standings that are counted where all are True.
pub(crate) enum Counted {
    AllTrue(usize),
    Each(Vec<Standing>),
}

impl Drop for Counted {
    #[inline]
    fn drop(self) {
        match self {
            Counted::AllTrue(_) => {}
            Counted::Each(kept) => drop(kept),
        }
    }
}

/// Standings, seen as their list.
#[derive(Drop)]
pub(crate) struct Standings {
    counted: Counted,
}

impl Model for Standings {
    ghost use Rattle.std.specs.Prelude.{List};
    ghost use Rattle.base_value.specs.declared.truth.Standing.{Standing as Rank};
    ghost use Rattle.base_columns.specs.Standings.{standings_of};

    ghost Value = { List Rank };

    ghost view = { λ s. standings_of s.counted };
}

#[tactic(auto, using(crate::proofs::StandingLists::standings), unfolding(crate::specs::Standings::standings_of))]
impl Standings {
    /// n rows at True.
    pub(crate) fn all_true(n: usize) -> Standings
        ensures { result ≡ replicate n True }
    {
        Standings {
            counted: Counted::AllTrue(n),
        }
    }

    /// One standing each.
    pub(crate) fn each(standings: Vec<Standing>) -> Standings
        ensures { result ≡ standings.items }
    {
        Standings {
            counted: Counted::Each(standings),
        }
    }

    /// How many there are.
    pub(crate) fn len(&self) -> usize
        ensures { result ≡ length self.now }
    {
        match &self.counted {
            Counted::AllTrue(n) => *n,
            Counted::Each(standings) => standings.len(),
        }
    }

    /// Whether they are counted, so that all are True.
    pub(crate) fn are_all_true(&self) -> bool
        ensures { IsTrue result → self.now ≡ replicate (length self.now) True }
    {
        matches!(self.counted, Counted::AllTrue(_))
    }

    /// The standing at a place.
    pub(crate) fn at(&self, i: usize) -> Standing
        requires { i < length self.now }
        ensures { result ≡ slice_index_or self.now i True }
    {
        match &self.counted {
            Counted::AllTrue(_) => Standing::AtTrue,
            Counted::Each(standings) => standings[i],
        }
    }

    // One standing each.
    fn spelled(&self, alloc: Global) -> Result<Vec<Standing>, AllocError>
        ensures { IfOk result (λ v. v.items ≡ self.now) }
    {
        match &self.counted {
            Counted::AllTrue(n) => Vec::from_elem(alloc, Standing::AtTrue, *n),
            Counted::Each(standings) => Vec::from_slice(alloc, standings.as_slice()),
        }
    }

    // One more at True, if all are and the count fits.
    fn count_one(&mut self, standing: Standing) -> bool
        ensures { self.new ≡ (if result then self.old ++ standing ∷ [] else self.old) }
    {
        let Counted::AllTrue(n) = &mut self.counted else {
            return false;
        };
        if standing != Standing::AtTrue || *n == usize::MAX {
            return false;
        }
        *n += 1;
        true
    }

    /// One more.
    pub(crate) fn push(&mut self, alloc: Global, standing: Standing) -> Result<(), AllocError>
        ensures ok { OnOk result (self.new ≡ self.old ++ standing ∷ []) }
        ensures err { OnErr result (self.new ≡ self.old) }
    {
        if self.count_one(standing) {
            return Ok(());
        }
        if let Counted::Each(standings) = &mut self.counted {
            standings.push(standing)?;
            return Ok(());
        }
        let mut standings = self.spelled(alloc)?;
        standings.push(standing)?;
        self.counted = Counted::Each(standings);
        Ok(())
    }

    /// The first n alone.
    pub(crate) fn truncate(&mut self, n: usize)
        requires { n ≤ length self.old }
        ensures { self.new ≡ take n self.old }
    {
        truncate(&mut self.counted, n);
    }

    /// The standings at these places.
    pub(crate) fn gather(&self, alloc: Global, places: &[u32]) -> Result<Standings, AllocError>
        requires { AreBelow (length self.now) places.now }
        ensures { IfOk result (λ s. s ≡ gathered True self.now places.now) }
    {
        match &self.counted {
            Counted::AllTrue(_) => Ok(Standings::all_true(places.len())),
            Counted::Each(standings) => {
                let picked = gather_each(alloc, standings.as_slice(), places)?;
                Ok(Standings::each(picked))
            }
        }
    }

    /// The lesser of both, place by place.
    pub(crate) fn lesser(&self, alloc: Global, other: &Standings) -> Result<Standings, AllocError>
        requires { length self.now ≡ length other.now }
        ensures { IfOk result (λ s. s ≡ lesser_standings self.now other.now) }
    {
        if self.are_all_true() {
            return other.copy(alloc);
        }
        if other.are_all_true() {
            return self.copy(alloc);
        }
        let mut both = Vec::with_capacity(alloc, self.len())?;
        for i in 0..self.len() {
            both.push(self.at(i).lesser(other.at(i)))?;
        }
        Ok(Standings::each(both))
    }

    /// All standings of another list at the end.
    pub(crate) fn append(&mut self, alloc: Global, other: &Standings) -> Result<(), AllocError>
        ensures { OnOk result (self.new ≡ self.old ++ other.now) }
    {
        if self.count_all(other) {
            return Ok(());
        }
        let mut standings = self.spelled(alloc)?;
        let more = other.spelled(alloc)?;
        standings.extend_from_slice(more.as_slice())?;
        self.counted = Counted::Each(standings);
        Ok(())
    }

    // All of another list more, if all are True on both sides and the count fits.
    fn count_all(&mut self, other: &Standings) -> bool
        ensures { self.new ≡ (if result then self.old ++ other.now else self.old) }
    {
        let Counted::AllTrue(n) = &mut self.counted else {
            return false;
        };
        let Counted::AllTrue(more) = &other.counted else {
            return false;
        };
        let Some(count) = n.checked_add(*more) else {
            return false;
        };
        *n = count;
        true
    }

    /// The same standings.
    pub(crate) fn copy(&self, alloc: Global) -> Result<Standings, AllocError>
        ensures { IfOk result (λ s. s ≡ self.now) }
    {
        match &self.counted {
            Counted::AllTrue(n) => Ok(Standings::all_true(*n)),
            Counted::Each(standings) => {
                let standings = Vec::from_slice(alloc, standings.as_slice())?;
                Ok(Standings::each(standings))
            }
        }
    }
}

// The first n alone.
#[tactic(auto, using(crate::proofs::StandingLists::standings), unfolding(crate::specs::Standings::standings_of))]
fn truncate(counted: &mut Counted, n: usize)
    requires { n ≤ length (standings_of counted.old) }
    ensures { standings_of counted.new ≡ take n (standings_of counted.old) }
{
    match counted {
        Counted::AllTrue(count) => *count = n,
        Counted::Each(standings) => standings.truncate(n),
    }
}

// The standings at these places.
fn gather_each(
    alloc: Global,
    standings: &[Standing],
    places: &[u32],
) -> Result<Vec<Standing>, AllocError>
    requires { AreBelow (length standings.now) places.now }
    ensures { IfOk result (λ v. v.items ≡ gathered True standings.now places.now) }
{
    let standings = copies(alloc, standings, places)?;
    Ok(standings)
}
