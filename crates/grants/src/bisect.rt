ghost use Rattle.std.specs.Prelude.{◌≡◌, slice_index_or};
ghost use Rattle.grants.specs.Held.{line_of};
ghost use Rattle.grants.specs.Order.{no_line, Placed};
ghost use Rattle.grants.specs.Texts.{texts_line, table_lines};

use crate::line::Line;
use crate::table::Table;
use crate::texts::Texts;
use wire::search::search_by;
use wire::span::part;

impl Line {
    pub(crate) fn texts<'t>(&self, bytes: &'t [u8]) -> Texts<'t>
        ensures { texts_line result ≡ line_of bytes.now self.now }
    {
        Texts {
            subject: part(bytes, self.subject),
            action: part(bytes, self.action),
            resource: part(bytes, self.resource),
        }
    }
}

impl<'t> Table<'t> {
    // The texts of the line of that number; past the last line they are empty.
    fn texts(&self, number: usize) -> Texts<'t>
        ensures { texts_line result ≡ slice_index_or (table_lines self.now) number no_line }
    {
        self.lines
            .get(number)
            .map(|line| line.texts(self.bytes))
            .unwrap_or_default()
    }

    // Where a line with these texts stands in the order, or else where it would: about log n comparisons.
    pub fn place_of(&self, asked: &Texts<'_>) -> Result<usize, usize>
        ensures { Placed (table_lines self.now) self.now.order.now (texts_line asked.now) result }
    {
        search_by(self.order, |&number| self.texts(number).cmp(asked))
    }
}
