//! Lists of one value, in memory for no more.
ghost use Rattle.std.specs.Prelude.{◌≡◌, IfOk, replicate, vec_len, vec_capacity};

use ioam_base::memory::NoMemory;
use std::alloc::Global;

// So many times a value, in memory for no more.
pub(crate) fn filled<T: Copy>(alloc: Global, value: T, count: usize) -> Result<Vec<T>, NoMemory>
    ensures items { IfOk result (λ list. list.items ≡ replicate count value) }
    ensures room { IfOk result (λ list. vec_capacity list ≡ vec_len list) }
{
    let mut list = Vec::with_capacity(alloc, count)?;
    'filling: while list.len() < count {
        list.push_reserved(value);
    }
    Ok(list)
}
