//! What expressions are, and their faults.
ghost use Rattle.std.specs.Prelude.{◌≡◌, is_some};
ghost use Rattle.std.specs.Option.{option_copied};
ghost use Rattle.tql_types.specs.Faults.{sooner};
ghost use Rattle.tql_types.specs.Sorts.{field_in, named_fault, field_fault, moment_fault};
ghost use Rattle.tql_types.specs.Sorts.{expr_fault};
ghost use Rattle.tql_types.specs.Sorts.{sort_of_field, sort_in, sort_of, go_together, comparable};
ghost use Rattle.tql_types.specs.Sorts.{holdable, clash};

use crate::TypeFault;
use crate::field::{Field, find_field, is_time_field};
use crate::scope::{Variable, find_variable};
use crate::spans::{long_span, needless_shift};
use tap_base::read_moment;
use tql_tree::{Expr, Shift};

/// Says what an expression is.
#[derive(Clone, Copy, Debug, PartialEq, Eq)]
pub enum Sort {
    Number,
    Text,
    Time,
    List,
    Now,
    Today,
}

/// Returns the fault at the lesser place, and at one place the first of the two.
pub fn sooner_of(fault: Option<TypeFault>, other: Option<TypeFault>) -> Option<TypeFault>
    ensures { result ≡ sooner fault other }
{
    match (fault, other) {
        (Some(one), Some(two)) => {
            if one.place() <= two.place() {
                Some(one)
            } else {
                Some(two)
            }
        }
        (Some(one), None) => Some(one),
        (None, other) => other,
    }
}

/// Returns the field of a variable that may be out of scope.
pub fn variable_field(variable: Option<&Variable>, name: &[u8]) -> Option<Field>
    ensures { result ≡ field_in (option_copied variable.entry) name.now }
{
    match variable {
        Some(variable) => find_field(variable.table, name),
        None => None,
    }
}

// Returns the fault of a field that may be missing: its name, or a shift if it is no time.
fn fault_of_named(field: Option<Field>, place: u32, shift: Option<Shift>) -> Option<TypeFault>
    ensures { result ≡ named_fault field place shift }
{
    match field {
        None => Some(TypeFault::NoField { place }),
        Some(field) => {
            if is_time_field(field) {
                None
            } else {
                needless_shift(shift)
            }
        }
    }
}

// Returns the fault of a field of a variable that may be out of scope.
fn fault_of_field(
    variable: Option<&Variable>,
    var_place: u32,
    name: &[u8],
    place: u32,
    shift: Option<Shift>,
) -> Option<TypeFault>
    ensures { result ≡ field_fault (option_copied variable.entry) var_place name.now place shift }
{
    match variable {
        None => Some(TypeFault::NoVar { place: var_place }),
        Some(variable) => fault_of_named(find_field(variable.table, name), place, shift),
    }
}

// Returns the fault of a text that is no moment.
fn fault_of_moment(text: &[u8], place: u32) -> Option<TypeFault>
    ensures { result ≡ moment_fault text.now place }
{
    match read_moment(text) {
        Ok(_) => None,
        Err(_) => Some(TypeFault::BadTime { place }),
    }
}

/// Returns the first fault of an expression.
pub fn fault_of_expr(scope: &[Variable], expr: &Expr) -> Option<TypeFault>
    ensures { result ≡ expr_fault scope.now expr.now }
{
    match expr {
        Expr::Number { .. } | Expr::Str { .. } => None,
        Expr::Now { shift, .. } | Expr::Today { shift, .. } => long_span(*shift),
        Expr::Moment { place, text, shift } => sooner_of(
            fault_of_moment(text.as_slice(), *place),
            long_span(*shift),
        ),
        Expr::Field {
            var,
            var_place,
            field,
            field_place,
            shift,
        } => sooner_of(
            fault_of_field(
                find_variable(var.as_slice(), scope),
                *var_place,
                field.as_slice(),
                *field_place,
                *shift,
            ),
            long_span(*shift),
        ),
    }
}

// Returns what a field is.
fn field_sort(field: Field) -> Sort
    ensures { result ≡ sort_of_field field }
{
    match field {
        Field::Number(_) => Sort::Number,
        Field::Text(_) => Sort::Text,
        Field::List(_) => Sort::List,
        Field::Arrival | Field::Date => Sort::Time,
    }
}

// Returns what a field is, if it is there.
fn maybe_sort(field: Option<Field>) -> Option<Sort>
    ensures { result ≡ sort_in field }
{
    match field {
        Some(field) => Some(field_sort(field)),
        None => None,
    }
}

/// Returns what an expression is, if its field is there.
pub fn expr_sort(scope: &[Variable], expr: &Expr) -> Option<Sort>
    ensures { result ≡ sort_of scope.now expr.now }
{
    match expr {
        Expr::Number { .. } => Some(Sort::Number),
        Expr::Str { .. } => Some(Sort::Text),
        Expr::Now { .. } => Some(Sort::Now),
        Expr::Today { .. } => Some(Sort::Today),
        Expr::Moment { .. } => Some(Sort::Time),
        Expr::Field { var, field, .. } => maybe_sort(variable_field(
            find_variable(var.as_slice(), scope),
            field.as_slice(),
        )),
    }
}

// Returns whether the two can be compared.
fn sorts_fit(x: Sort, y: Sort) -> bool
    ensures { result ≡ go_together x y }
{
    match (x, y) {
        (Sort::Number, Sort::Number) | (Sort::Text, Sort::Text) => true,
        (Sort::Time, Sort::Time | Sort::Now | Sort::Today) => true,
        (Sort::Now, Sort::Time | Sort::Now) => true,
        (Sort::Today, Sort::Time | Sort::Today) => true,
        _ => false,
    }
}

/// Returns whether both are there and can be compared.
pub fn can_compare(x: Option<Sort>, y: Option<Sort>) -> bool
    ensures { result ≡ comparable x y }
{
    match (x, y) {
        (Some(x), Some(y)) => sorts_fit(x, y),
        _ => false,
    }
}

/// Returns whether the left one is a list and the right one a text.
pub fn can_hold(x: Option<Sort>, y: Option<Sort>) -> bool
    ensures { result ≡ holdable x y }
{
    matches!((x, y), (Some(Sort::List), Some(Sort::Text)))
}

/// Returns the fault of two sides: one of their own, or that they don't go together.
pub fn fault_of_sides(
    left: Option<TypeFault>,
    right: Option<TypeFault>,
    fits: bool,
    place: u32,
) -> Option<TypeFault>
    ensures { result ≡ clash left right fits place }
{
    if left.is_some() || right.is_some() {
        sooner_of(left, right)
    } else if fits {
        None
    } else {
        Some(TypeFault::Clash { place })
    }
}
