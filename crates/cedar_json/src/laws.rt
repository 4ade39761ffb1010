//! Laws of what is written and read. Each is a function that does nothing: its contract is the
//! law.
ghost use Rattle.std.specs.Prelude.{◌≡◌, Some};
ghost use Rattle.std.specs.FinMap.{values};
ghost use Rattle.cedar_expressions.specs.Value.{Value};
ghost use Rattle.cedar_policy_store.specs.PlaceFree.{Policy, Policies};
ghost use Rattle.cedar_json_writer.specs.Forms.{value_json};
ghost use Rattle.cedar_json_writer.specs.PolicyForms.{policy_json, set_json};
ghost use Rattle.cedar_json.specs.AsRead.{as_read, policy_as_read, set_as_read};
ghost use Rattle.cedar_json.specs.PolicyReadings.{policy_from, set_from};
ghost use Rattle.cedar_json.specs.Readings.{Known, expr_from};
ghost use Rattle.cedar_json.specs.Legible.{IsLegible, IsLegiblePolicy, IsLegibleSet};

/// What is written of a value whose texts are known is read as that value, its operands joined
/// from the left and `has` of several attributes spread.
pub fn written_values_are_read()
    ensures { (known : Known) (value : Value) → IsLegible known value
        → expr_from known (value_json value) ≡ Some (as_read value) }
{}

/// What is written of a policy whose texts are known is read as the policy with its conditions so.
pub fn written_policies_are_read()
    ensures { (known : Known) (policy : Policy) → IsLegiblePolicy known policy
        → policy_from known policy.id (policy_json policy) ≡ Some (policy_as_read policy) }
{}

/// What is written of a set whose texts are known is read as the set of these policies.
pub fn written_sets_are_read()
    ensures { (known : Known) (set : Policies) → IsLegibleSet known set
        → set_from known (set_json (values set.policies) (values set.templates))
        ≡ Some (set_as_read set) }
{}

/// That value is written as the same, and read as itself: JSON tells values apart exactly by it.
pub fn read_values_are_written_alike()
    ensures same { (value : Value) → value_json (as_read value) ≡ value_json value }
    ensures twice { (value : Value) → as_read (as_read value) ≡ as_read value }
{}
