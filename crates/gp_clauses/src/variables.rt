//! The variables of a rule: all that are declared, and those that stand in left labels.

ghost use Rattle.std.specs.Prelude.{◌≡◌, fold, IfOk, OnOk};
ghost use Rattle.gp_syntax.specs.Declaration.{variables_in, left_variables};
ghost use Rattle.gp_syntax.specs.Tree.{expression_of, variables_of, declaration_of, side_of};
ghost use Rattle.gp_syntax.specs.Fault.{variables_in_side};
ghost use Rattle.gp_clauses.specs.inside.Tables.{with_name, no_variables, with_variable, with_names, with_variables_in, with_kept, with_group, declared_variable, type_by};

use crate::shape::{Shape, shape_of};
use gp_memory::NoMemory;
use gp_syntax::{Expr, GraphDecl, Name, RuleDecl, VariableGroup, VariableType};
use gp_values::NameTable;
use sqlite_items::Items;
use std::alloc::Global;

/// Variables in the order of their declaration: their names, and the type of each.
pub struct Variables {
    pub names: NameTable,
    pub types: Items<VariableType>,
}

impl Drop for Variables {
    fn drop(self) {
        let Variables { names, types } = self;
        drop(names);
        drop(types);
    }
}

impl Variables {
    /// The types alone.
    pub fn into_types(self) -> Items<VariableType>
        ensures { result ≡ self.types }
    {
        let Variables { names: _, types } = self;
        types
    }

    /// The type of a variable; list, where there is no such variable.
    pub fn type_of(&self, name: &Name) -> VariableType
        ensures { result ≡ type_by self.now name.now }
    {
        match self.names.place(name.as_bytes()) {
            Some(place) => match self.types.get(place) {
                Some(variable_type) => *variable_type,
                None => VariableType::List,
            },
            None => VariableType::List,
        }
    }

    // Adds a variable, unless there is one of its name.
    fn add(
        &mut self,
        alloc: Global,
        name: &Name,
        variable_type: VariableType,
    ) -> Result<(), NoMemory>
        ensures { OnOk result (self.new ≡ with_variable self.old (declared_variable name.now variable_type)) }
    {
        if self.names.add(alloc, name.as_bytes())? {
            self.types.push(variable_type)?;
        }
        Ok(())
    }

    // The same, where the name is among some others.
    fn add_kept(
        &mut self,
        alloc: Global,
        kept: Option<&NameTable>,
        name: &Name,
        variable_type: VariableType,
    ) -> Result<(), NoMemory>
        ensures { OnOk result (self.new ≡ with_kept kept.entry self.old (declared_variable name.now variable_type)) }
    {
        match kept {
            Some(table) => {
                if table.has(name.as_bytes()) {
                    self.add(alloc, name, variable_type)
                } else {
                    Ok(())
                }
            }
            None => self.add(alloc, name, variable_type),
        }
    }

    fn add_group(
        &mut self,
        alloc: Global,
        kept: Option<&NameTable>,
        group: &VariableGroup,
    ) -> Result<(), NoMemory>
        ensures { OnOk result (self.new ≡ with_group kept.entry self.old group.now) }
    {
        self.add_kept(alloc, kept, &group.first, group.variable_type)?;
        for name in group.rest.as_slice() {
            self.add_kept(alloc, kept, name, group.variable_type)?;
        }
        Ok(())
    }

    /// The variables of groups, those whose names are among some others, where there are others.
    pub fn of_groups(
        alloc: Global,
        kept: Option<&NameTable>,
        groups: &[VariableGroup],
    ) -> Result<Variables, NoMemory>
        ensures { IfOk result (λ v. v ≡ fold (with_group kept.entry) no_variables groups.now) }
    {
        let mut variables = Variables {
            names: NameTable::new(alloc),
            types: Items::new(alloc),
        };
        for group in groups {
            variables.add_group(alloc, kept, group)?;
        }
        Ok(variables)
    }
}

/// Adds the names of the variables of an expression that are not yet in the table.
pub fn add_variables(alloc: Global, table: &mut NameTable, e: &Expr<Name>) -> Result<(), NoMemory>
    ensures { OnOk result (table.new ≡ with_variables_in table.old (expression_of e.now)) }
{
    match shape_of(e) {
        Shape::Variable(x) => add_name(alloc, table, x),
        Shape::Length(x) => add_name(alloc, table, x),
        Shape::Negated(operand) => add_variables(alloc, table, operand),
        Shape::Chain(first, links) => {
            add_variables(alloc, table, first)?;
            'operands: for at in 0..links.len() {
                let (_, operand) = links.get(at);
                add_variables(alloc, table, operand)?;
            }
            Ok(())
        }
        _ => Ok(()),
    }
}

fn add_name(alloc: Global, table: &mut NameTable, name: &Name) -> Result<(), NoMemory>
    ensures { OnOk result (table.new ≡ with_name table.old name.now) }
{
    table.add(alloc, name.as_bytes())?;
    Ok(())
}

/// Adds the names of the variables of a side that are not yet in the table.
pub fn add_side(alloc: Global, table: &mut NameTable, side: &GraphDecl) -> Result<(), NoMemory>
    ensures { OnOk result (table.new ≡ with_names table.old (variables_in_side (side_of side.now))) }
{
    'nodes: for node in side.nodes.as_slice() {
        add_variables(alloc, table, &node.label)?;
    }
    'edges: for edge in side.edges.as_slice() {
        add_variables(alloc, table, &edge.label)?;
    }
    Ok(())
}
