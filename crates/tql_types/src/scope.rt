//! The variables in scope.
ghost use Rattle.std.specs.Prelude.{◌≡◌, ◌==◌, ◌<◌, IfOk};
ghost use Rattle.std.specs.Option.{option_copied};
ghost use Rattle.tql_types.specs.Scopes.{is_variable_named, variable_named, entered, first_scope};
ghost use Rattle.tql_types.specs.Scopes.{next_variable};

use std::alloc::Global;
use tap_base::{Copied, Memory, Rows, Text};
use tql_core::Var;
use tql_tree::Table;

/// Limits the variables of a query: `m` and five of EXISTS.
pub const VARIABLE_LIMIT: u8 = 6;

/// Holds a variable in scope: its name in the text, its number and its table.
#[derive(Drop)]
pub struct Variable {
    pub name: Text,
    pub var: Var,
    pub table: Table,
}

impl Copied for Variable {
    fn copied(&self) -> Result<Variable, Memory> {
        Ok(Variable {
            name: self.name.copy()?,
            var: self.var,
            table: self.table,
        })
    }
}

// Returns whether this is the variable's name.
fn has_name(name: &[u8], variable: &Variable) -> bool
    ensures { result ≡ is_variable_named name.now variable.now }
{
    variable.name.as_slice() == name
}

pub fn find_variable<'a>(name: &[u8], scope: &'a [Variable]) -> Option<&'a Variable>
    ensures { option_copied result ≡ variable_named name.now scope.now }
{
    for variable in scope {
        if has_name(name, variable) {
            return Some(variable);
        }
    }
    None
}

/// Returns the scope of a query: `m`, a document. `Memory` if out of memory.
pub fn query_scope(alloc: Global) -> Result<Rows<Variable>, Memory>
    ensures { IfOk result (λ scope. scope ≡ first_scope) }
{
    let mut scope = Rows::new(alloc);
    scope.push(Variable {
        name: Text::from_slice(alloc, b"m")?,
        var: Var(0),
        table: Table::Docs,
    })?;
    Ok(scope)
}

/// Returns the scope with one more variable. `Memory` if out of memory.
pub fn enter(
    scope: &Rows<Variable>,
    count: u8,
    name: &Text,
    table: Table,
) -> Result<Rows<Variable>, Memory>
    ensures { IfOk result (λ inner. inner ≡ entered scope.now count name.now table) }
{
    let mut inner = scope.copy()?;
    inner.push(Variable {
        name: name.copy()?,
        var: Var(count),
        table,
    })?;
    Ok(inner)
}

/// Returns how many variables there are with one more. A seventh isn't counted.
pub fn one_more(count: u8) -> u8
    ensures { result ≡ next_variable count }
{
    if count < VARIABLE_LIMIT {
        count + 1
    } else {
        VARIABLE_LIMIT
    }
}
