//! What is said to those who asked for no command: the forms that there are.
use crate::command::{Form, form_of, forms};
use std::io::Eprint;

// Says on standard error what a form is.
fn say_form<R: Eprint>(rt: &R, form: &Form) {
    let _ = eprintln!(rt; "ioam: usage: ioam {} {}", form.0, form.1);
}

/// Says on standard error the form of the command that the first word names; of all commands if it
/// names none.
pub fn say_usage<R: Eprint>(rt: &R, command: &str) {
    match form_of(command, forms()) {
        Some(form) => say_form(rt, form),
        None => {
            for form in forms() {
                say_form(rt, form);
            }
        }
    }
}
