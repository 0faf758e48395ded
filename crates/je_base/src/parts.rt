//! Formats of bytes as lists of parts.

ghost use Rattle.je_base.specs.Parts.{Format, OneValue, OneWay};

use crate::bytes::one_reading;

/// A format of bytes whose parts have these tests, nested values and faults.
pub trait Parted {
    ghost Test: { Type 0 };

    ghost Value: { Type 0 };

    ghost Fault: { Type 0 };

    ghost format: { Format Test Value Fault };
}

/// Parts of one layout come to one answer at an offset: nothing else stands there, and no other
/// fault is the first.
pub fn one_way<F: Parted>()
    requires { OneValue F.format }
    ensures { OneWay F.format }
{
    // The law of the layer below that the proof stands on.
    one_reading();
}
