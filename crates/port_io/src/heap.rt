//! Values on the heap.
ghost use Rattle.std.specs.Prelude.{◌≡◌, IfOk, option_map};

use crate::NoMemory;
use std::alloc::Global;

/// The value, on the heap. Only want of memory is an error.
///
/// Trees are made by it rather than by `Box::new`, which hands the value back where it fails, so that each caller would have to let it
/// go.
pub fn boxed<T: Drop>(alloc: Global, value: T) -> Result<Box<T>, NoMemory>
    ensures { IfOk result (λ made. made.value ≡ value) }
{
    Ok(Box::new(alloc, value)?)
}

/// Both values, on the heap. Only want of memory of either is an error.
pub fn boxed_both<A: Drop, B: Drop>(alloc: Global, a: A, b: B) -> Result<(Box<A>, Box<B>), NoMemory>
    ensures { IfOk result (λ made. (made.0.value ≡ a) × (made.1.value ≡ b)) }
{
    let a = boxed(alloc, a)?;
    Ok((a, boxed(alloc, b)?))
}

/// A value that waited on the heap, if there is one, where it stands.
pub fn unboxed<T: Drop>(value: Option<Box<T>>) -> Option<T>
    ensures { result ≡ option_map (λ b. b.value) value }
{
    match value {
        Some(value) => Some(Box::into_inner(value)),
        None => None,
    }
}
