//! Where fragments stand, and what a script plans.

use crate::trees::Fragment;
use je_base::{Pos, Text};
use je_desc::JType;
use sqlite_items::Items;

/// What an `import` names.
#[derive(Debug, Drop)]
pub enum Import {
    /// All classes of a package.
    Package(Text),
    /// One class.
    Single(Text),
}

/// Where a fragment stands.
#[derive(Clone, Copy, Debug, PartialEq, Eq)]
pub enum Place {
    Body,
    Before,
    BeforeBody,
    After,
    Catch,
    Call,
    NewObject,
    InitCall,
    FieldRead,
    FieldWrite,
    NewArray,
    Cast,
    InstanceOf,
    Handler,
}

/// What is known round a fragment.
#[derive(Debug, Drop)]
pub struct Context {
    pub place: Place,
    pub class_name: Text,
    pub is_static: bool,
    /// `this` is initialised.
    pub this_ready: bool,
    /// The method is a constructor.
    pub is_init: bool,
    /// The type of `$0`, or `None` where it is null or not given.
    pub target: Option<JType>,
    /// The object of a write of a field is `this` before its initialisation.
    pub no_target: bool,
    pub params: Items<JType>,
    pub result: Option<JType>,
    /// The class of `$class`.
    pub named: Text,
    /// The type of `$type`.
    pub subject: Option<JType>,
    /// The class of `$e`.
    pub caught: Option<Text>,
    pub imports: Items<Import>,
}

/// Which expressions of a method a fragment takes the place of.
#[derive(Drop)]
pub struct Rule {
    pub place: Place,
    pub class_name: Option<JType>,
    pub member: Option<Text>,
    pub params: Option<Items<JType>>,
    pub fragment: Fragment,
}

/// A catch of a plan.
#[derive(Drop)]
pub struct CatchPlan {
    pub name: Text,
    pub pos: Pos,
    pub fragment: Fragment,
}

/// What a script plans of one method.
#[derive(Drop)]
pub struct MethodPlan {
    pub name: Text,
    pub descriptor: Text,
    pub body: Option<Fragment>,
    pub before: Option<Fragment>,
    pub before_body: Option<Fragment>,
    pub after: Option<Fragment>,
    /// `after` runs where an exception leaves the method, too.
    pub finally: bool,
    pub catches: Items<CatchPlan>,
    pub rules: Items<Rule>,
}
