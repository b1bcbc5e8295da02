// Why a job is not done over the names in a list.

ghost use Rattle.std.specs.Prelude.{◌≡◌, ◌^◌, ◌≤◌, length, nat_lt};
ghost use Rattle.std.specs.List.{list_any};
ghost use Rattle.std.specs.Option.{option_map};
ghost use Rattle.b3_io.specs.Operands.{operand_of, operands_in, operands_left};
ghost use Rattle.b3_program.specs.Lists.{is_input_operand, is_keyed, is_raw, refusal_over};
ghost use Rattle.b3_program.specs.Usages.{usage_text};

use crate::task::Job;
use crate::usage::Usage;
use b3_io::{Form, INPUT_NAME, KeyChoice, Operand, Operands};

/// The first refusal that holds of a job over the operands in a list of this content.
pub fn refusal_over(job: &Job, list: &str, content: &[u8]) -> Option<Usage>
    requires { length content.now ≤ 2 ^ 30 }
    ensures { option_map usage_text result ≡ refusal_over job.now (operands_in list.now content.now) }
{
    let Job::Sum(options) = job else {
        return None;
    };
    if is_raw(options.form) && are_many(Operands::in_list(list, content)) {
        return Some(Usage::RawOne);
    }
    if is_keyed(&options.key) && includes_input(Operands::in_list(list, content)) {
        return Some(Usage::KeyNeedsFiles);
    }
    None
}

fn is_raw(form: Form) -> bool
    ensures { result ≡ is_raw form }
{
    matches!(form, Form::Raw)
}

fn is_keyed(key: &KeyChoice) -> bool
    ensures { result ≡ is_keyed key.now }
{
    matches!(key, KeyChoice::Keyed)
}

// Whether there is more than one operand.
fn are_many(mut operands: Operands<'_>) -> bool
    ensures { result ≡ nat_lt 1 (length (operands_left operands.entry)) }
{
    operands.next().is_some() && operands.next().is_some()
}

// Whether standard input is one of the operands.
fn includes_input(mut operands: Operands<'_>) -> bool
    ensures { result ≡ list_any is_input_operand (operands_left operands.entry) }
{
    while let Some(operand) = operands.next() {
        if is_input(&operand) {
            return true;
        }
    }
    false
}

fn is_input(operand: &Operand<'_>) -> bool
    ensures { result ≡ is_input_operand (operand_of operand.now) }
{
    match operand {
        Operand::Text(name) => *name == INPUT_NAME,
        Operand::NotText(_, _) => false,
    }
}
