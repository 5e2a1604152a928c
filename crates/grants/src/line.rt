use wire::span::Span;

// What is granted: who may do what with what; the texts are parts of the file's bytes.
#[derive(Clone, Copy, Debug, PartialEq)]
pub struct Line {
    pub subject: Span,
    pub action: Span,
    pub resource: Span,
}
