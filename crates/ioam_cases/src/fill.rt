//! Numbers in lines: `{n}`, `{n+K}`, `{n-K}` and `{K-n}`.
use ioam_base::memory::NoMemory;
use std::alloc::Global;

// The number that stands for these characters between braces, if they are such a form.
fn number_of(form: &str, letter: &str, value: u64) -> Option<u64> {
    if let Some(rest) = form.strip_prefix(letter) {
        if rest.is_empty() {
            return Some(value);
        }
        if let Some(more) = rest.strip_prefix("+") {
            return value.checked_add(more.parse::<u64>().ok()?);
        }
        return value.checked_sub(rest.strip_prefix("-")?.parse::<u64>().ok()?);
    }
    let whole = form.strip_suffix(letter)?.strip_suffix("-")?;
    whole.parse::<u64>().ok()?.checked_sub(value)
}

// Appends what follows a brace, with the number in place of the form that it begins with.
fn put_form(out: &mut String, part: &str, letter: &str, value: u64) -> Result<(), NoMemory> {
    if let Some((form, rest)) = part.split_once("}") {
        if let Some(number) = number_of(form, letter, value) {
            write!(out, "{number}{rest}")?;
            return Ok(());
        }
    }
    write!(out, "{{{part}")?;
    Ok(())
}

/// A line with `value` for `letter` in each such form. Other braces stay.
pub(crate) fn fill(
    alloc: Global,
    line: &str,
    letter: &str,
    value: u64,
) -> Result<String, NoMemory> {
    let mut out = String::new(alloc);
    for (index, part) in line.split("{").enumerate() {
        if index == 0 {
            out.push_str(part)?;
        } else {
            put_form(&mut out, part, letter, value)?;
        }
    }
    Ok(out)
}
