//! Sets of class names.

ghost use Rattle.std.specs.Prelude.{◌≡◌, IfOk, OnOk, List, [], ◌∷◌, ◌++◌};
ghost use Rattle.je_shape.specs.Canonical.{IsCanonicalNames};
ghost use Rattle.je_shape.specs.Inserted.{inserted};
ghost use Rattle.je_shape.specs.Joined.{IsUnion};

use je_base::{Memory, Text};
use std::alloc::Global;
use std::cmp::Ordering;
use std::marker::Model;
use std::rc::Rc;

/// Names of classes, in order of their bytes, each once. Copies share the list.
#[derive(Debug, Drop)]
pub struct Names {
    list: Rc<Vec<Text>>,
}

impl Model for Names {
    ghost use Rattle.std.specs.Prelude.{ℕ, List};
    ghost use Rattle.je_shape.specs.Canonical.{IsCanonicalNames};

    ghost Value = { List (List ℕ) };

    ghost view = { λ names. names.list.value.items };

    ghost invariant = { λ names. IsCanonicalNames names.list.value.items };
}

impl Names {
    /// The set of one name.
    ///
    /// # Errors
    ///
    /// `Memory` where memory runs out.
    pub fn of(alloc: Global, name: Text) -> Result<Names, Memory>
        ensures { IfOk result (λ names. names ≡ name ∷ []) }
    {
        let mut list = Vec::new(alloc);
        list.push(name)?;
        Names::of_sorted(alloc, list)
    }

    /// The set of names that are in order already.
    pub(crate) fn of_sorted(alloc: Global, list: Vec<Text>) -> Result<Names, Memory>
        requires { IsCanonicalNames list.items }
        ensures { IfOk result (λ names. names ≡ list.items) }
    {
        let list = Rc::new(alloc, list)?;
        Ok(Names { list })
    }

    /// The same names once more. Nothing is copied.
    ///
    /// # Errors
    ///
    /// `Memory` where memory runs out.
    pub fn copy(&self) -> Result<Names, Memory>
        ensures { IfOk result (λ names. names ≡ self.now) }
    {
        let list = self.list.clone()?;
        Ok(Names { list })
    }

    /// The names.
    pub fn as_slice(&self) -> &[Text]
        ensures names { result.now ≡ self.now }
        ensures sorted { IsCanonicalNames result.now }
    {
        self.list.as_slice()
    }
}

/// The names are copied behind others.
fn push_all(out: &mut Vec<Text>, names: &[Text]) -> Result<(), Memory>
    ensures { OnOk result (out.new.items ≡ out.old.items ++ names.now) }
{
    for name in names {
        out.push(name.copy()?)?;
    }
    Ok(())
}

/// The names and one more, which is put where it belongs.
fn with_name(alloc: Global, names: &[Text], name: &Text) -> Result<Vec<Text>, Memory>
    ensures { IfOk result (λ more. more.items ≡ inserted name.now names.now) }
{
    let mut more = Vec::new(alloc);
    let mut rest = names;
    while let Some((first, behind)) = rest.split_first() {
        match name.cmp(first) {
            Ordering::Less => {
                more.push(name.copy()?)?;
                push_all(&mut more, rest)?;
                return Ok(more);
            }
            Ordering::Equal => {
                push_all(&mut more, rest)?;
                return Ok(more);
            }
            Ordering::Greater => more.push(first.copy()?)?,
        }
        rest = behind;
    }
    more.push(name.copy()?)?;
    Ok(more)
}

/// The names of both sets, in order.
///
/// # Errors
///
/// `Memory` where memory runs out.
pub fn union(alloc: Global, a: &[Text], b: &[Text]) -> Result<Vec<Text>, Memory>
    requires { IsCanonicalNames a.now }
    ensures names { IfOk result (λ all. IsUnion a.now b.now all.items) }
    ensures sorted { IfOk result (λ all. IsCanonicalNames all.items) }
{
    let mut all = Vec::new(alloc);
    push_all(&mut all, a)?;
    for name in b {
        all = with_name(alloc, &all, name)?;
    }
    Ok(all)
}
