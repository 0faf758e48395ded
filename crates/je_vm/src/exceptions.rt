//! The exceptions that an action throws of itself (JVMS 6.5).

ghost use Rattle.std.specs.Prelude.{◌≡◌, codes, IfOk};
ghost use Rattle.je_machine.specs.Outside.{raise};
ghost use Rattle.je_heap.specs.Response.{response_of};

use je_base::Memory;
use je_heap::{Outside, Response, raise};
use std::alloc::Global;

/// What is thrown where an int or a long is divided by zero.
fn arithmetic_name() -> &'static [u8]
    ensures { result.now ≡ codes "java/lang/ArithmeticException" }
{
    b"java/lang/ArithmeticException".as_slice()
}

/// What is thrown at an index out of bounds.
fn out_of_bounds_name() -> &'static [u8]
    ensures { result.now ≡ codes "java/lang/ArrayIndexOutOfBoundsException" }
{
    b"java/lang/ArrayIndexOutOfBoundsException".as_slice()
}

/// What is thrown where an array does not take a value.
fn array_store_name() -> &'static [u8]
    ensures { result.now ≡ codes "java/lang/ArrayStoreException" }
{
    b"java/lang/ArrayStoreException".as_slice()
}

/// What is thrown at a negative size.
fn negative_size_name() -> &'static [u8]
    ensures { result.now ≡ codes "java/lang/NegativeArraySizeException" }
{
    b"java/lang/NegativeArraySizeException".as_slice()
}

/// What is thrown at a cast that fails.
fn class_cast_name() -> &'static [u8]
    ensures { result.now ≡ codes "java/lang/ClassCastException" }
{
    b"java/lang/ClassCastException".as_slice()
}

/// A new ArithmeticException.
pub(crate) fn arithmetic(alloc: Global, outside: Outside) -> Result<Response, Memory>
    ensures { IfOk result (λ r.
        response_of r ≡ raise (codes "java/lang/ArithmeticException") outside) }
{
    let response = raise(alloc, arithmetic_name(), outside)?;
    Ok(response)
}

/// A new ArrayIndexOutOfBoundsException.
pub(crate) fn out_of_bounds(alloc: Global, outside: Outside) -> Result<Response, Memory>
    ensures { IfOk result (λ r.
        response_of r ≡ raise (codes "java/lang/ArrayIndexOutOfBoundsException") outside) }
{
    let response = raise(alloc, out_of_bounds_name(), outside)?;
    Ok(response)
}

/// A new ArrayStoreException.
pub(crate) fn array_store(alloc: Global, outside: Outside) -> Result<Response, Memory>
    ensures { IfOk result (λ r.
        response_of r ≡ raise (codes "java/lang/ArrayStoreException") outside) }
{
    let response = raise(alloc, array_store_name(), outside)?;
    Ok(response)
}

/// A new NegativeArraySizeException.
pub(crate) fn negative_size(alloc: Global, outside: Outside) -> Result<Response, Memory>
    ensures { IfOk result (λ r.
        response_of r ≡ raise (codes "java/lang/NegativeArraySizeException") outside) }
{
    let response = raise(alloc, negative_size_name(), outside)?;
    Ok(response)
}

/// A new ClassCastException.
pub(crate) fn class_cast(alloc: Global, outside: Outside) -> Result<Response, Memory>
    ensures { IfOk result (λ r.
        response_of r ≡ raise (codes "java/lang/ClassCastException") outside) }
{
    let response = raise(alloc, class_cast_name(), outside)?;
    Ok(response)
}
