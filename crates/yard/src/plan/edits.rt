// The five edits of a plan. A refused edit leaves the plan as it was.

ghost use Rattle.std.specs.Prelude.{◌≡◌, length};
ghost use Rattle.yard.specs.Force.{opened_at, point_of, terms_of};
ghost use Rattle.yard.specs.Edits.{answered, after_edit, kept_terms};
ghost use Rattle.yard.specs.Offers.{Slot, Standing, Listed};
ghost use Rattle.yard.specs.declared.edit.Edit.TheVariants.{Open as opening, Raise as raising, Strike as striking, Feeder as feeding, Link as linking};

use crate::edit::{Edit, EntryTerms};
use crate::fault::{EntryFault, EntryRow};
use crate::force::{InForce, Mast, NEW_TERMS, PILLARS, Point, Run, Terms};
use crate::plan::Plan;

// The mast at a new place: one that is moved keeps its terms, a new one has new terms.
fn placed(standing: Option<Mast>, at: Point) -> Mast
    ensures at { result.at ≡ at }
    ensures feeders { result.feeders ≡ kept_terms standing }
{
    let new = Mast {
        at,
        feeders: [NEW_TERMS; PILLARS],
    };
    standing.map_or(new, |moved| Mast { at, ..moved })
}

impl Plan {
    // A new plan has one pillar and no mast.
    pub fn new() -> Plan
        ensures { result.force ≡ opened_at 1 }
    {
        Plan {
            force: InForce::opened(1),
        }
    }

    // How many pillars the plan has.
    pub fn pillars(&self) -> u8
        ensures { result ≡ self.now.force.count }
    {
        self.force.count
    }

    // What stands under a mast's number.
    fn slot(&self, mast: u8) -> Result<Option<Mast>, EntryFault>
        ensures { Slot self.now.force mast result }
    {
        let slot = self.force.masts.get(mast as usize);
        slot.copied().ok_or(EntryRow::MastNumber.at(1))
    }

    // The standing mast of a number.
    fn standing(&self, mast: u8) -> Result<Mast, EntryFault>
        ensures { Standing self.now.force mast result }
    {
        self.slot(mast)?.ok_or(EntryRow::NotStanding.at(1))
    }

    // Refuses a pillar that the plan does not have, by the field that names it.
    fn listed(&self, pillar: u8, field: u8) -> Result<(), EntryFault>
        ensures { Listed self.now.force pillar field result }
    {
        if pillar >= self.force.count {
            return Err(EntryRow::NoPillar.at(field));
        }
        Ok(())
    }

    // Where a mast stands, if it does.
    pub fn mast(&self, number: u8) -> Option<Point>
        ensures { result ≡ point_of self.now.force number }
    {
        self.standing(number).ok().map(|standing| standing.at)
    }

    // The masts by number.
    pub fn masts(&self) -> &[Option<Mast>]
        ensures masts { result.now ≡ self.now.force.masts }
        ensures many { length result.now ≡ 40 }
    {
        &self.force.masts[..]
    }

    // The terms of the links: a row for each pillar, with a link in the row of its lower pillar.
    pub fn links(&self) -> &[[Terms; PILLARS]]
        ensures links { result.now ≡ self.now.force.links }
        ensures many { length result.now ≡ 12 }
    {
        &self.force.links[..]
    }

    // The terms of a run, where the plan has it.
    pub fn terms(&self, run: Run) -> Option<Terms>
        ensures { result ≡ terms_of self.now.force run }
    {
        match run {
            Run::Feeder { mast, pillar } if pillar < self.force.count => {
                let standing = self.standing(mast).ok()?;
                Some(standing.feeders[pillar as usize])
            }
            Run::Link { one, other } if one != other && one.max(other) < self.force.count => {
                Some(self.force.links[one.min(other) as usize][one.max(other) as usize])
            }
            Run::Feeder { .. } | Run::Link { .. } => None,
        }
    }

    // Clears the plan and sets the pillar count.
    pub fn open(&mut self, count: u8) -> Result<(), EntryFault>
        ensures answer { result ≡ answered self.old.force (opening count) }
        ensures after { self.new.force ≡ after_edit self.old.force (opening count) }
    {
        if count == 0 || count as usize > PILLARS {
            return Err(EntryRow::PillarCount.at(1));
        }
        self.force = InForce::opened(count);
        Ok(())
    }

    // Stands a mast with new terms, or moves it with the terms that it has.
    pub fn raise(&mut self, mast: u8, x: i32, y: i32) -> Result<(), EntryFault>
        ensures answer { result ≡ answered self.old.force (raising mast x y) }
        ensures after { self.new.force ≡ after_edit self.old.force (raising mast x y) }
    {
        let standing = self.slot(mast)?;
        if x.unsigned_abs() > 50_000 {
            return Err(EntryRow::OffGrid.at(2));
        }
        if y.unsigned_abs() > 50_000 {
            return Err(EntryRow::OffGrid.at(6));
        }
        self.force.masts[mast as usize] = Some(placed(standing, Point { x, y }));
        Ok(())
    }

    // Removes a mast with its terms.
    pub fn strike(&mut self, mast: u8) -> Result<(), EntryFault>
        ensures answer { result ≡ answered self.old.force (striking mast) }
        ensures after { self.new.force ≡ after_edit self.old.force (striking mast) }
    {
        self.standing(mast)?;
        self.force.masts[mast as usize] = None;
        Ok(())
    }

    // Replaces the terms of the run from a mast to a pillar.
    pub fn feeder(&mut self, mast: u8, pillar: u8, terms: EntryTerms) -> Result<(), EntryFault>
        ensures answer { result ≡ answered self.old.force (feeding mast pillar terms) }
        ensures after { self.new.force ≡ after_edit self.old.force (feeding mast pillar terms) }
    {
        let standing = self.standing(mast)?;
        self.listed(pillar, 2)?;
        let terms = Terms::try_from(terms)?;
        self.force.masts[mast as usize] = Some(standing.refed(pillar, terms));
        Ok(())
    }

    // Replaces the terms of the run between two pillars, which is the same from either end.
    pub fn link(&mut self, one: u8, other: u8, terms: EntryTerms) -> Result<(), EntryFault>
        ensures answer { result ≡ answered self.old.force (linking one other terms) }
        ensures after { self.new.force ≡ after_edit self.old.force (linking one other terms) }
    {
        self.listed(one, 1)?;
        self.listed(other, 2)?;
        if one == other {
            return Err(EntryRow::SelfLink.at(2));
        }
        let terms = Terms::try_from(terms)?;
        self.force.links[one.min(other) as usize][one.max(other) as usize] = terms;
        Ok(())
    }

    // Makes an edit.
    pub fn make(&mut self, edit: Edit) -> Result<(), EntryFault>
        ensures answer { result ≡ answered self.old.force edit }
        ensures after { self.new.force ≡ after_edit self.old.force edit }
    {
        match edit {
            Edit::Open { count } => self.open(count),
            Edit::Raise { mast, x, y } => self.raise(mast, x, y),
            Edit::Strike { mast } => self.strike(mast),
            Edit::Feeder {
                mast,
                pillar,
                terms,
            } => self.feeder(mast, pillar, terms),
            Edit::Link { one, other, terms } => self.link(one, other, terms),
        }
    }
}
