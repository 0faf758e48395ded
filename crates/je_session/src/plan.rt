use je_base::Text;
use sqlite_items::Items;

/// What takes the place of an expression.
#[derive(Clone, Copy, Debug, PartialEq, Eq)]
pub enum Fragment {
    /// `{ }`
    Empty,
    /// `{ $proceed($$); }`: does the original expression on its arguments.
    Proceed,
}

/// Calls of one method, and what takes their place.
#[derive(Debug, Drop)]
pub struct Rule {
    /// The class that the call names, in internal form.
    pub class_name: Text,
    /// The method that the call names.
    pub member: Text,
    pub fragment: Fragment,
}

/// The edits of the method `void NAME()` of a class.
#[derive(Debug, Drop)]
pub struct MethodPlan {
    pub name: Text,
    /// The first rule that fits an expression counts.
    pub rules: Items<Rule>,
}

/// The edits of a class.
#[derive(Debug, Drop)]
pub struct Script {
    /// The class, in internal form.
    pub class_name: Text,
    pub plan: MethodPlan,
}
