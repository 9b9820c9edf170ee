//! Assignments of the variables of a rule.

ghost use Rattle.std.specs.Prelude.{◌≡◌, ◌<◌, ◌++◌, [], true, length, slice_get, slice_set, replicate, Some, None, IfOk, OnOk, OnErr};
ghost use Rattle.std.specs.Option.{option_copied};
ghost use Rattle.gp_syntax.specs.Assigned.{PartialAssignment, IsInTypes, declared_type};
ghost use Rattle.gp_syntax.specs.Value.{is_of};

use crate::kinds::VariableType;
use gp_memory::NoMemory;
use gp_values::List;
use smallvec::SmallVec;
use std::alloc::Global;
use std::marker::Model;

/// So many variables stand in an assignment itself; more take memory.
const INLINE_VARIABLES: usize = 4;

type Types = SmallVec<VariableType, { INLINE_VARIABLES }>;

type Values = SmallVec<Option<List>, { INLINE_VARIABLES }>;

/// The values of the variables of a rule's left labels, by their places: each has a value of its declared type, or none
/// yet.
pub struct Assignment {
    types: Types,
    values: Values,
}

impl Drop for Assignment {
    fn drop(self) {
        let Assignment { types, values } = self;
        drop(types);
        drop(values);
    }
}

impl Model for Assignment {
    ghost use Rattle.gp_syntax.specs.Assigned.{PartialAssignment, IsInTypes};

    ghost Value = { PartialAssignment };

    ghost view = { λ a. record { types = a.types.items; values = a.values.items } };

    ghost invariant = { λ a. IsInTypes (record { types = a.types.items; values = a.values.items }) };
}

// Puts variables of these types behind the others, without values.
fn add_variables(
    types: &mut Types,
    values: &mut Values,
    added: &[VariableType],
) -> Result<(), NoMemory>
    ensures types { OnOk result (types.new.items ≡ types.old.items ++ added.now) }
    ensures values { OnOk result (values.new.items ≡ values.old.items ++ replicate (length added.now) None) }
{
    for _ in added {
        values.push(None)?;
    }
    types.extend_from_slice(added)?;
    Ok(())
}

impl Assignment {
    /// Variables of these types, without values.
    pub fn new(alloc: Global, types: &[VariableType]) -> Result<Assignment, NoMemory>
        ensures { IfOk result (λ a. a ≡ record { types = types.now; values = replicate (length types.now) None }) }
    {
        let mut assignment = Assignment::none(alloc);
        assignment.begin(types)?;
        Ok(assignment)
    }

    /// No variables. It takes no memory.
    pub fn none(alloc: Global) -> Assignment
        ensures { result ≡ record { types = []; values = [] } }
    {
        Assignment {
            types: SmallVec::new(alloc),
            values: SmallVec::new(alloc),
        }
    }

    /// Begins anew with variables of these types, without values. On refusal there are no variables.
    pub fn begin(&mut self, types: &[VariableType]) -> Result<(), NoMemory>
        ensures ok { OnOk result (self.new ≡ record { types = types.now; values = replicate (length types.now) None }) }
        ensures err { OnErr result (self.new ≡ record { types = []; values = [] }) }
    {
        self.types.clear();
        self.values.clear();
        let begun = add_variables(&mut self.types, &mut self.values, types);
        if begun.is_err() {
            self.types.clear();
            self.values.clear();
        }
        begun
    }

    /// The declared types.
    pub fn types(&self) -> &[VariableType]
        ensures { result.now ≡ self.now.types }
    {
        self.types.as_slice()
    }

    /// The value of a variable, if it has one yet.
    pub fn value(&self, variable: usize) -> Option<&List>
        requires { variable < length self.now.types }
        ensures value { slice_get self.now.values variable ≡ Some (option_copied result) }
        ensures in_types { IsInTypes self.now }
    {
        self.values[variable].as_ref()
    }

    /// Gives a variable its value.
    pub fn set(&mut self, variable: usize, value: List)
        requires known { variable < length self.old.types }
        requires in_type { is_of (declared_type self.old variable) value ≡ true }
        ensures { self.new ≡ record self.old { values = slice_set self.old.values variable (Some value) } }
    {
        self.values[variable] = Some(value);
    }

    /// Takes the value of a variable away, if it has one.
    pub fn clear(&mut self, variable: usize)
        requires { variable < length self.old.types }
        ensures { self.new ≡ record self.old { values = slice_set self.old.values variable None } }
    {
        self.values[variable] = None;
    }
}
