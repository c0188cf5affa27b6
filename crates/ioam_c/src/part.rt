//! Values that are there or not, as C sees them: a flag that is 0 or 1, and a value that is 0 if the flag is 0.
ghost use Rattle.std.specs.Prelude.{◌≡◌};
ghost use Rattle.ioam_c.specs.Part.{flag, number, if_set};

// 1 if a number is there.
pub(crate) fn flag(field: Option<u32>) -> u8
    ensures { result ≡ flag field }
{
    match field {
        Some(_) => 1,
        None => 0,
    }
}

// 1 if a number of 64 bits is there.
pub(crate) fn wide_flag(field: Option<u64>) -> u8
    ensures { result ≡ flag field }
{
    match field {
        Some(_) => 1,
        None => 0,
    }
}

// The number, or 0.
pub(crate) fn number(field: Option<u32>) -> u32
    ensures { result ≡ number field }
{
    match field {
        Some(number) => number,
        None => 0,
    }
}

// The number of 64 bits, or 0.
pub(crate) fn wide_number(field: Option<u64>) -> u64
    ensures { result ≡ number field }
{
    match field {
        Some(number) => number,
        None => 0,
    }
}

// The number, if the flag is set.
pub(crate) fn if_set(flag: u8, number: u32) -> Option<u32>
    ensures { result ≡ if_set flag number }
{
    if flag == 0 { None } else { Some(number) }
}

// The number of 64 bits, if the flag is set.
pub(crate) fn wide_if_set(flag: u8, number: u64) -> Option<u64>
    ensures { result ≡ if_set flag number }
{
    if flag == 0 { None } else { Some(number) }
}
