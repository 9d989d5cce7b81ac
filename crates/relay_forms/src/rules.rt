//! The names of rules.
ghost use Rattle.std.specs.Prelude.{◌≡◌};
ghost use Rattle.relay_forms.specs.Rules.{rule_text};

use plan_ir::Rule;

/// The name of a rule, as it is printed; takes no memory.
pub fn rule_text(rule: Rule) -> &'static str
    ensures { result.now ≡ rule_text rule }
{
    match rule {
        Rule::F1 => "F1",
        Rule::L1 => "L1",
        Rule::L2 => "L2",
        Rule::L3 => "L3",
        Rule::L4 => "L4",
        Rule::L5 => "L5",
        Rule::L6 => "L6",
        Rule::L7 => "L7",
        Rule::L8 => "L8",
        Rule::S1 => "S1",
        Rule::S2 => "S2",
        Rule::S3 => "S3",
        Rule::S4 => "S4",
        Rule::S5 => "S5",
        Rule::S6 => "S6",
        Rule::S7 => "S7",
        Rule::S8 => "S8",
        Rule::S9 => "S9",
        Rule::S10 => "S10",
        Rule::S11 => "S11",
        Rule::S12 => "S12",
        Rule::V1 => "V1",
        Rule::V2 => "V2",
        Rule::V3 => "V3",
        Rule::V4 => "V4",
        Rule::V5 => "V5",
        Rule::V6 => "V6",
        Rule::V7 => "V7",
        Rule::V8 => "V8",
        Rule::V9 => "V9",
        Rule::V10 => "V10",
        Rule::V11 => "V11",
        Rule::V12 => "V12",
        Rule::V13 => "V13",
        Rule::V14 => "V14",
        Rule::V15 => "V15",
        Rule::V16 => "V16",
        Rule::V17 => "V17",
        Rule::V18 => "V18",
        Rule::V19 => "V19",
        Rule::V20 => "V20",
        Rule::V21 => "V21",
        Rule::V22 => "V22",
        Rule::V23 => "V23",
        Rule::V24 => "V24",
        Rule::E1 => "E1",
        Rule::E2 => "E2",
    }
}
