//! What a response makes of the resources held.

ghost use Rattle.std.specs.Prelude.{◌≡◌, ◌++◌, ◌⊎◌, IfOk, OnOk, OnErr};
ghost use Rattle.hb_held.specs.Held.{begun, without, with_came};
ghost use Rattle.hb_held.specs.Outcome.{with_resource, after_resource, after_removals, after_resources};
ghost use Rattle.hb_held.specs.Outcome.{removed_name, removed_names, applied_as, refused_for, applied_names, refusals, changes};
ghost use Rattle.hb_held.specs.Outcome.{after_response, outcome_of, AfterSomeRemovals, AfterSomeResources, AfterFront};

use crate::held::Held;
use crate::outcome::{Changed, Outcome, Refusal};
use hb_base::{List, NoMemory, Or, Text};
use hb_disco::{Kind, Resource, Response};
use std::alloc::Global;

impl Held {
    /// Removes a name of this kind, and tells it where it was held.
    fn remove_named(
        &mut self,
        alloc: Global,
        kind: Kind,
        name: &Text,
        changed: &mut List<Changed>,
    ) -> Result<(), NoMemory>
        ensures held { OnOk result (self.new ≡ without self.old kind name.now) }
        ensures told { OnOk result (changed.new ≡ changed.old ++ changes kind (removed_name self.old kind name.now)) }
        ensures stays { OnErr result ((self.new ≡ self.old) ⊎ (self.new ≡ without self.old kind name.now)) }
    {
        if self.remove(alloc, kind, name)? {
            let name = name.copy(alloc)?;
            changed.push(Changed { kind, name })?;
        }
        Ok(())
    }

    /// Removes names of this kind in order.
    fn remove_all(
        &mut self,
        alloc: Global,
        kind: Kind,
        names: &[Text],
        changed: &mut List<Changed>,
    ) -> Result<(), NoMemory>
        ensures held { OnOk result (self.new ≡ after_removals self.old kind names.now) }
        ensures told { OnOk result (changed.new ≡ changed.old ++ changes kind (removed_names self.old kind names.now)) }
        ensures stays { OnErr result (AfterSomeRemovals self.old kind names.now self.new) }
    {
        for name in names {
            self.remove_named(alloc, kind, name, changed)?;
        }
        Ok(())
    }

    /// Takes a resource of a response of this kind, and tells its name or its refusal.
    fn take(
        &mut self,
        alloc: Global,
        kind: Kind,
        resource: &Resource,
        changed: &mut List<Changed>,
        refused: &mut List<Refusal>,
    ) -> Result<(), NoMemory>
        ensures held { OnOk result (self.new ≡ after_resource self.old kind resource.now) }
        ensures told { OnOk result (changed.new
            ≡ changed.old ++ changes kind (applied_as resource.now (with_resource self.old kind resource.now))) }
        ensures refused { OnOk result (refused.new
            ≡ refused.old ++ refused_for resource.now (with_resource self.old kind resource.now)) }
        ensures stays { OnErr result ((self.new ≡ self.old) ⊎ (self.new ≡ after_resource self.old kind resource.now)) }
    {
        match self.put(alloc, kind, resource) {
            Ok(()) => {
                let name = resource.name.copy(alloc)?;
                changed.push(Changed { kind, name })?;
            }
            Err(Or::Fault(why)) => {
                let name = resource.name.copy(alloc)?;
                refused.push(Refusal { name, why })?;
            }
            Err(Or::NoMemory) => return Err(NoMemory),
        }
        Ok(())
    }

    /// Takes the resources of a response of this kind in order.
    fn take_all(
        &mut self,
        alloc: Global,
        kind: Kind,
        resources: &[Resource],
        changed: &mut List<Changed>,
        refused: &mut List<Refusal>,
    ) -> Result<(), NoMemory>
        ensures held { OnOk result (self.new ≡ after_resources self.old kind resources.now) }
        ensures told { OnOk result (changed.new ≡ changed.old ++ changes kind (applied_names self.old kind resources.now)) }
        ensures refused { OnOk result (refused.new ≡ refused.old ++ refusals self.old kind resources.now) }
        ensures stays { OnErr result (AfterSomeResources self.old kind resources.now self.new) }
    {
        for resource in resources {
            self.take(alloc, kind, resource, changed, refused)?;
        }
        Ok(())
    }

    /// Applies a response (Envoy xDS protocol, "Incremental xDS"): its removals go first, and then its resources, in
    /// order; a later equal name replaces. A refused resource leaves its name as it was.
    ///
    /// Errors: `NoMemory`, and then the resources held are what some first of these changes made of them.
    pub fn apply(&mut self, alloc: Global, response: &Response) -> Result<Outcome, NoMemory>
        ensures outcome { IfOk result (λ outcome. outcome ≡ outcome_of self.old response.now) }
        ensures held { OnOk result (self.new ≡ after_response self.old response.now) }
        ensures stays { OnErr result (AfterFront self.old response.now self.new) }
    {
        let kind = response.kind;
        self.begin(alloc);
        let mut changed = List::new(alloc);
        let mut refused = List::new(alloc);
        self.remove_all(alloc, kind, response.removed.as_slice(), &mut changed)?;
        let removed = changed.len();
        let resources = response.resources.as_slice();
        self.take_all(alloc, kind, resources, &mut changed, &mut refused)?;
        self.mark(kind);
        let applied = changed.len() - removed;
        Ok(Outcome {
            refused,
            changed,
            applied: applied as u64,
            removed: removed as u64,
        })
    }
}
