// The three texts of a line, or those that are asked for. They are compared by subject, then by action, then by resource.
#[derive(Clone, Copy, Debug, Default, PartialEq, Eq, PartialOrd, Ord)]
pub(crate) struct Texts<'t> {
    pub subject: &'t [u8],
    pub action: &'t [u8],
    pub resource: &'t [u8],
}
