//! The built-in classes, by their names.

ghost use Rattle.std.specs.Prelude.{◌≡◌, map, IfOk, IfSome, All};
ghost use Rattle.je_base.specs.Text.{is_same_text};
ghost use Rattle.je_desc.specs.Fit.{IsFit};
ghost use Rattle.je_builtin.specs.BuiltIns.{built_ins, built_in, class_named};
ghost use Rattle.je_builtin.specs.Rows.{summary_of};

use crate::made::summary;
use crate::row::Class;
use crate::table::CLASSES;
use je_base::{Memory, Text};
use je_desc::Summary;
use std::alloc::Global;

/// The rows of the table.
fn table() -> &'static [Class]
    ensures rows { map summary_of result.now ≡ built_ins }
    ensures fit { All IsFit built_ins }
{
    &CLASSES
}

/// Whether this is the row of the class of this name.
fn is_named(alloc: Global, row: &Class, name: &Text) -> Result<bool, Memory>
    ensures { IfOk result (λ is. is ≡ is_same_text (summary_of row.now).name name.now) }
{
    let own = Text::of(alloc, row.0)?;
    Ok(own == *name)
}

/// The class of this name among these rows.
fn class_in(alloc: Global, rows: &[Class], name: &Text) -> Result<Option<Summary>, Memory>
    ensures { IfOk result (λ found. found ≡ class_named name.now (map summary_of rows.now)) }
{
    for row in rows {
        if is_named(alloc, row, name)? {
            return Ok(Some(summary(alloc, row)?));
        }
    }
    Ok(None)
}

/// The built-in class of this name, as other classes see it; `None` where there is none.
///
/// # Errors
///
/// `Memory` where memory runs out.
pub fn built_in(alloc: Global, name: &Text) -> Result<Option<Summary>, Memory>
    ensures found { IfOk result (λ found. found ≡ built_in name.now) }
    ensures named { IfOk result (λ found. IfSome found (λ class. class.name ≡ name.now)) }
    ensures fit { IfOk result (λ found. IfSome found IsFit) }
{
    class_in(alloc, table(), name)
}

/// The classes of these rows.
fn classes_of(alloc: Global, rows: &[Class]) -> Result<Vec<Summary>, Memory>
    ensures { IfOk result (λ classes. classes.items ≡ map summary_of rows.now) }
{
    let mut classes = Vec::new(alloc);
    for row in rows {
        classes.push(summary(alloc, row)?)?;
    }
    Ok(classes)
}

/// The built-in classes, in the order of the table.
///
/// # Errors
///
/// `Memory` where memory runs out.
pub fn built_ins(alloc: Global) -> Result<Vec<Summary>, Memory>
    ensures classes { IfOk result (λ classes. classes.items ≡ built_ins) }
    ensures fit { IfOk result (λ classes. All IsFit classes.items) }
{
    classes_of(alloc, table())
}
