//! Functions whose names are keys of operators.
ghost use Rattle.std.specs.Prelude.{◌≡◌, ◌∷◌, List, ℕ, MatchResult, [], string_bytes};
ghost use Rattle.cedar_expressions.specs.Path.{name_text};
ghost use Rattle.cedar_json_writer.specs.FunctionKeys.{is_operator_key, key_before};
ghost use Rattle.cedar_json_writer.specs.machines.Outputs.{Checks};
ghost use Rattle.cedar_json_writer.specs.machines.Pending.{key_next};

use crate::refusal::ToJsonError;
use crate::todo::Todo;
use crate::writer::name_string;
use cedar_expressions::Name;
use std::alloc::Global;

/// Whether a key is that of an operator.
pub fn is_operator_key(key: &str) -> bool
    ensures { result ≡ is_operator_key key.now }
{
    match key {
        "Value" | "Var" | "Slot" | "Set" | "Record" | "!" | "neg" | "isEmpty" => true,
        "==" | "!=" | "in" | "<" | "<=" | ">" | ">=" => true,
        "&&" | "||" | "+" | "-" | "*" => true,
        "contains" | "containsAll" | "containsAny" | "getTag" | "hasTag" => true,
        "." | "has" | "like" | "is" | "if-then-else" => true,
        _ => false,
    }
}

/// Refuses a function that is next and has such a name.
pub fn refuse_operator_key(alloc: Global, next: Todo<'_>) -> Result<(), ToJsonError>
    ensures { Checks (key_next next.entry) result }
{
    match next {
        Todo::Function(name) => refuse_name(alloc, name),
        _ => Ok(()),
    }
}

fn refuse_name(alloc: Global, name: &Name) -> Result<(), ToJsonError>
    ensures { Checks (key_before (name_text name.now) []) result }
{
    let text = name_string(alloc, name)?;
    if is_operator_key(text.as_str()) {
        return Err(ToJsonError::OperatorKey(text));
    }
    Ok(())
}
