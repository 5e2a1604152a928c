use crate::rules::Rules;

// A place for a rule policy: what was read last, and room to read the next.
#[derive(Drop)]
pub struct RulePolicy<'a> {
    pub(crate) bytes: &'a [u8],
    pub(crate) index: Rules,
    pub(crate) spare: Rules,
}
