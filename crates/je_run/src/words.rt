//! Words of a line.

use je_base::{Memory, Run};
use je_value::{Value, ValueForm};
use std::alloc::Global;

/// The bytes of a word.
pub fn run_of(alloc: Global, word: &str) -> Result<Run, Memory> {
    let bytes = Vec::from_slice(alloc, word.as_bytes())?;
    Run::of_vec(alloc, bytes)
}

/// The value of a form, if there is one.
fn value_if(form: Option<ValueForm>) -> Option<Value> {
    match form {
        Some(form) => Some(Value::of(form)),
        None => None,
    }
}

/// The number, as a value of the kind that a word names.
fn number_of(kind: &str, number: &str) -> Option<ValueForm> {
    match kind {
        "int" => match number.parse::<i32>() {
            Ok(n) => Some(ValueForm::Int(n)),
            Err(_) => None,
        },
        "long" => match number.parse::<i64>() {
            Ok(n) => Some(ValueForm::Long(n)),
            Err(_) => None,
        },
        "flt" => match number.parse::<u32>() {
            Ok(bits) => Some(ValueForm::Float(bits)),
            Err(_) => None,
        },
        "dbl" => match number.parse::<u64>() {
            Ok(bits) => Some(ValueForm::Double(bits)),
            Err(_) => None,
        },
        "obj" => match number.parse::<usize>() {
            Ok(number) => Some(ValueForm::Object(number)),
            Err(_) => None,
        },
        _ => None,
    }
}

/// The value that a word is: `null`, or `int:N`, `long:N`, `flt:BITS`, `dbl:BITS` or `obj:NUMBER`,
/// all of which are decimal.
pub fn value_of(word: &str) -> Option<Value> {
    match word.split_once(':') {
        Some((kind, number)) => value_if(number_of(kind, number)),
        None => {
            if word == "null" {
                value_if(Some(ValueForm::Null))
            } else {
                None
            }
        }
    }
}
