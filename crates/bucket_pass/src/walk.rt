//! The walk over the rows of a bucket, name by name.

ghost use Rattle.std.specs.Prelude.{◌≡◌, ◌+◌, ◌-◌, ◌^◌, ℕ, List, [], ◌∷◌, ◌++◌, IfOk, IsTrue, None, OnOk, Some, if◌then◌else◌, min, option_map};
ghost use Rattle.std.specs.List.{list_all};
ghost use Rattle.b2_base.specs.declared.extent.Extent.{Extent as Place};
ghost use Rattle.b2_types.specs.declared.version.VersionOf.{VersionOf as TheVersion};
ghost use Rattle.b2_types.specs.LifecycleRules.{has_days};
ghost use Rattle.bucket_pass.specs.Changes.{change, does};
ghost use Rattle.bucket_pass.specs.Walked.{IsPast, MayHave, Stands, is_past};

use crate::look::{face, plan_for};
use b2_base::{Memory, Moment, Text, VersionNum};
use b2_types::{Bucket, Version};
use lifecycle_pass::{Face, Plan};
use name_rules::{FileName, Name};
use std::alloc::Global;

/// What a pass does to a name that it changes.
#[derive(Debug, Drop)]
pub struct NamePlan {
    pub name: FileName,
    pub plan: Plan,
}

/// How far the walk has come: what is read of the versions of a name, and what is planned for the
/// names before it.
#[derive(Drop)]
pub(crate) struct Walk<'a> {
    /// The name whose versions are being read.
    name: Option<&'a FileName>,
    faces: Vec<Face>,
    /// The number of the next version, which may stand one above the last.
    next: u64,
    changes: Vec<NamePlan>,
}

fn does(plan: &Plan) -> bool
    ensures { result ≡ does plan.now }
{
    plan.hide | !plan.cancels.get().is_empty() | !plan.drops.get().is_empty()
}

fn copied(alloc: Global, name: &FileName) -> Result<FileName, Memory>
    ensures { IfOk result (λ n. n ≡ name.now) }
{
    Ok(Name::of(Text::copy(alloc, name.get())?))
}

impl<'a> Walk<'a> {
    /// Nothing is read yet, and this number is the next.
    pub(crate) fn new(alloc: Global, next: u64) -> Walk<'a>
        ensures name { option_map (λ n. n.now) result.name ≡ None }
        ensures faces { result.faces.items ≡ [] }
        ensures next { result.next ≡ next }
        ensures changes { result.changes.items ≡ [] }
    {
        Walk {
            name: None,
            faces: Vec::new(alloc),
            next,
            changes: Vec::new(alloc),
        }
    }

    // Takes the plan of a name.
    fn add(&mut self, alloc: Global, name: &FileName, plan: Plan) -> Result<(), Memory>
        ensures name { self.new.name ≡ self.old.name }
        ensures faces { self.new.faces ≡ self.old.faces }
        ensures next { OnOk result (self.new.next
            ≡ (if plan.hide then min (self.old.next + 1) (2 ^ 64 - 1) else self.old.next)) }
        ensures changes { OnOk result (self.new.changes.items
            ≡ self.old.changes.items ++ change name.now (Some plan)) }
    {
        if plan.hide {
            self.next = self.next.saturating_add(1);
        }
        if does(&plan) {
            let name = copied(alloc, name)?;
            self.changes.push(NamePlan { name, plan })?;
        }
        Ok(())
    }

    /// Plans what a pass does to the name that is being read.
    pub(crate) fn end_name(
        &mut self,
        alloc: Global,
        bucket: &Bucket,
        t: Moment,
        last: VersionNum,
    ) -> Result<(), Memory>
        requires { IsTrue (list_all has_days bucket.now.rules) }
        ensures stands { OnOk result ((first : ℕ) (all rest : List (TheVersion Place))
            → IsPast (option_map (λ n. n.now) self.old.name) rest
            → Stands t bucket.now last first all rest (option_map (λ n. n.now) self.old.name)
            self.old.faces.items self.old.next self.old.changes.items
            → Stands t bucket.now last first all rest (option_map (λ n. n.now) self.new.name)
            self.new.faces.items self.new.next self.new.changes.items) }
        ensures name { OnOk result (option_map (λ n. n.now) self.new.name ≡ None) }
    {
        let Some(name) = self.name else {
            return Ok(());
        };
        let room = self.next <= last.get();
        let plan = plan_for(alloc, bucket, name.get(), &self.faces, t, room)?;
        self.name = None;
        self.faces.clear();
        match plan {
            Some(plan) => {
                self.add(alloc, name, plan)?;
                Ok(())
            }
            None => Ok(()),
        }
    }

    // Whether another name is being read.
    fn is_past(&self, name: &FileName) -> bool
        ensures { result ≡ is_past (option_map (λ n. n.now) self.now.name) name.now }
    {
        match self.name {
            Some(other) => name.get().as_bytes() != other.get().as_bytes(),
            None => false,
        }
    }

    // Ends the name that is being read, where another comes.
    fn turn(
        &mut self,
        alloc: Global,
        bucket: &Bucket,
        version: &Version,
        t: Moment,
        last: VersionNum,
    ) -> Result<(), Memory>
        requires { IsTrue (list_all has_days bucket.now.rules) }
        ensures stands { OnOk result ((first : ℕ) (all rest : List (TheVersion Place))
            → Stands t bucket.now last first all (version.now ∷ rest)
            (option_map (λ n. n.now) self.old.name)
            self.old.faces.items self.old.next self.old.changes.items
            → Stands t bucket.now last first all (version.now ∷ rest)
            (option_map (λ n. n.now) self.new.name)
            self.new.faces.items self.new.next self.new.changes.items) }
        ensures name { OnOk result (MayHave (option_map (λ n. n.now) self.new.name)
            version.now.name) }
    {
        if !self.is_past(&version.name) {
            return Ok(());
        }
        self.end_name(alloc, bucket, t, last)?;
        Ok(())
    }

    /// Reads the next version.
    pub(crate) fn step(
        &mut self,
        alloc: Global,
        bucket: &Bucket,
        version: &'a Version,
        t: Moment,
        last: VersionNum,
    ) -> Result<(), Memory>
        requires { IsTrue (list_all has_days bucket.now.rules) }
        ensures stands { OnOk result ((first : ℕ) (all rest : List (TheVersion Place))
            → Stands t bucket.now last first all (version.now ∷ rest)
            (option_map (λ n. n.now) self.old.name)
            self.old.faces.items self.old.next self.old.changes.items
            → Stands t bucket.now last first all rest (option_map (λ n. n.now) self.new.name)
            self.new.faces.items self.new.next self.new.changes.items) }
    {
        self.turn(alloc, bucket, version, t, last)?;
        self.name = Some(&version.name);
        self.faces.push(face(version, t))?;
        Ok(())
    }

    /// What is planned for the names before the one that is being read.
    pub(crate) fn changes(self) -> Vec<NamePlan>
        ensures { result ≡ self.entry.changes }
    {
        self.changes
    }
}
