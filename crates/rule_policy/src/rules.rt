ghost use Rattle.std.specs.Prelude.{◌≤◌, vec_len, vec_capacity};

use crate::rule::{Condition, Rule};

// What was read of a rule policy, with room for what the longest file holds.
// The conditions of all rules stand in one table: a Vec in each rule would want memory when a file is opened.
#[derive(Drop)]
pub struct Rules {
    pub rules: Vec<Rule>,
    pub conditions: Vec<Condition>,
    ghost few: { vec_len rules ≤ 64 },
    ghost rule_room: { 64 ≤ vec_capacity rules },
    ghost condition_room: { 256 ≤ vec_capacity conditions },
}
